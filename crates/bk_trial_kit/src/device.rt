//! Sources and sinks in memory that move few bytes a call, and fail.

ghost use Rattle.std.specs.Prelude.{◌≡◌, ◌↔◌, ◌-◌, ◌^◌, [], length, min, max, IsErr, IfOk, OnOk, Some};
ghost use Rattle.std.specs.Io.{ReadsAtMost, WritesAtMost};
ghost use Rattle.std.specs.Io.KnownBytes.{ReadConsumes, WriteAppends};
ghost use Rattle.bk_trial_kit.specs.Devices.{
  most_of,
  calls_left,
  calls_later,
  IsCalled,
  source_device,
  source_bytes,
  most_asked,
  sink_device,
  sink_bytes,
};

use std::alloc::Global;
use std::io::{self, ErrorKind, Read, Write};

/// More calls than a program makes.
pub const EVER: usize = usize::MAX;

/// How a source or a sink works: at most `most` bytes a call, of a source one at least; and which calls fail.
#[derive(Clone, Copy, Debug)]
pub struct Device {
    most: usize,
    // How many calls succeed before the next that fails, and how many then before each later one.
    calls: usize,
    later: usize,
}

impl Device {
    /// No call fails.
    pub fn good(most: usize) -> Device
        ensures most { most_of result ≡ most }
        ensures calls { calls_left result ≡ 2 ^ 64 - 1 }
    {
        Device {
            most,
            calls: EVER,
            later: EVER,
        }
    }

    /// All calls fail after the first ones.
    pub fn lost_after(calls: usize, most: usize) -> Device
        ensures most { most_of result ≡ most }
        ensures first { calls_left result ≡ calls }
        ensures later { calls_later result ≡ 0 }
    {
        Device {
            most,
            calls,
            later: 0,
        }
    }

    /// The one call after the first ones fails.
    pub fn failing_once(calls: usize, most: usize) -> Device
        ensures most { most_of result ≡ most }
        ensures first { calls_left result ≡ calls }
        ensures later { calls_later result ≡ 2 ^ 64 - 1 }
    {
        Device {
            most,
            calls,
            later: EVER,
        }
    }

    /// How many bytes a call moves at most.
    pub fn most(self) -> usize
        ensures { result ≡ most_of self }
    {
        self.most
    }

    // Makes a call: how many bytes it moves at most, unless it fails.
    fn call(&mut self) -> io::Result<usize>
        ensures fails { IsErr result ↔ (calls_left self.old ≡ 0) }
        ensures called { IsCalled self.old self.new }
        ensures most { IfOk result (λ most. most ≡ most_of self.old) }
    {
        if self.calls == 0 {
            self.calls = self.later;
            return Err(io::Error::from(ErrorKind::Other));
        }
        self.calls -= 1;
        Ok(self.most)
    }
}

/// A source that gives these bytes.
#[derive(Debug, Drop)]
pub struct Reader<'a> {
    rest: &'a [u8],
    device: Device,
    asked: usize,
}

impl<'a> Reader<'a> {
    /// A source of these bytes.
    pub fn new(bytes: &'a [u8], device: Device) -> Reader<'a>
        ensures bytes { source_bytes result ≡ bytes.now }
        ensures device { source_device result ≡ device }
        ensures asked { most_asked result ≡ 0 }
    {
        Reader {
            rest: bytes,
            device,
            asked: 0,
        }
    }

    /// How many bytes are left.
    pub fn left(&self) -> usize
        ensures { result ≡ length (source_bytes self.now) }
    {
        self.rest.len()
    }

    /// How many bytes a call that succeeded asked for, at most.
    pub fn most_asked(&self) -> usize
        ensures { result ≡ most_asked self.now }
    {
        self.asked
    }
}

impl Read for Reader<'_> {
    ghost remaining = { λ r. Some (source_bytes r) };

    fn read(&mut self, buf: &mut [u8]) -> io::Result<usize>
        ensures bound { ReadsAtMost result buf.new }
        ensures bytes { ReadConsumes (Some (source_bytes self.old)) (Some (source_bytes self.new))
            result buf.new }
        ensures fails { IsErr result ↔ (calls_left (source_device self.old) ≡ 0) }
        ensures called { IsCalled (source_device self.old) (source_device self.new) }
        ensures count { IfOk result (λ n. n ≡ min
            (min (length (source_bytes self.old)) (length buf.new))
            (max (most_of (source_device self.old)) 1)) }
        ensures asked { OnOk result (most_asked self.new ≡ max (most_asked self.old) (length buf.new)) }
    {
        let most = self.device.call()?;
        self.asked = self.asked.max(buf.len());
        let count = self.rest.len().min(buf.len()).min(most.max(1));
        buf[..count].copy_from_slice(&self.rest[..count]);
        self.rest = &self.rest[count..];
        Ok(count)
    }
}

/// A sink that keeps what it takes.
#[derive(Debug, Drop)]
pub struct Writer {
    held: Vec<u8>,
    device: Device,
}

impl Writer {
    /// A sink that keeps nothing yet.
    pub fn new(alloc: Global, device: Device) -> Writer
        ensures bytes { sink_bytes result ≡ [] }
        ensures device { sink_device result ≡ device }
    {
        Writer {
            held: Vec::new(alloc),
            device,
        }
    }

    /// What it took.
    pub fn into_bytes(self) -> Vec<u8>
        ensures { result.items ≡ sink_bytes self }
    {
        let Writer { held, device: _ } = self;
        held
    }
}

impl Write for Writer {
    ghost contents = { λ w. Some (sink_bytes w) };

    // One that memory refuses fails too.
    fn write(&mut self, buf: &[u8]) -> io::Result<usize>
        ensures bound { WritesAtMost result buf.now }
        ensures bytes { WriteAppends (Some (sink_bytes self.old)) (Some (sink_bytes self.new))
            result buf.now }
        ensures fails { calls_left (sink_device self.old) ≡ 0 → IsErr result }
        ensures called { IsCalled (sink_device self.old) (sink_device self.new) }
        ensures count { IfOk result (λ n. n ≡ min (length buf.now) (most_of (sink_device self.old))) }
    {
        let most = self.device.call()?;
        let count = buf.len().min(most);
        self.held.extend_from_slice(&buf[..count])?;
        Ok(count)
    }

    fn flush(&mut self) -> io::Result<()> {
        Ok(())
    }
}
