//! Standard output and standard error, where the reader of the output may go away.

use std::io::{ErrorKind, Result, Write};
use std::sync::atomic::{AtomicBool, Ordering};

/// Whether the reader of standard output closed its pipe, as `head` does: a write failed for that.
#[derive(Drop)]
pub(crate) struct Pipe {
    closed: AtomicBool,
}

impl Pipe {
    /// One that is open.
    pub(crate) fn new() -> Pipe {
        Pipe {
            closed: AtomicBool::new(false),
        }
    }

    fn is_closed(&self) -> bool {
        self.closed.load(Ordering::Relaxed)
    }

    fn close(&self) {
        self.closed.store(true, Ordering::Relaxed);
    }
}

/// Standard output, which notes where its pipe is closed.
#[derive(Drop)]
pub(crate) struct Output<'a, W> {
    inner: W,
    pipe: &'a Pipe,
}

impl<'a, W> Output<'a, W> {
    pub(crate) fn new(inner: W, pipe: &'a Pipe) -> Self {
        Output { inner, pipe }
    }
}

impl<'a, W: Write> Write for Output<'a, W> {
    fn write(&mut self, buf: &[u8]) -> Result<usize> {
        let written = self.inner.write(buf);
        if let Err(error) = &written {
            if error.kind() == ErrorKind::BrokenPipe {
                self.pipe.close();
            }
        }
        written
    }

    fn flush(&mut self) -> Result<()> {
        self.inner.flush()
    }
}

/// Standard error, which takes what is said after that and shows none of it: who closes a pipe wants no more.
#[derive(Drop)]
pub(crate) struct Remarks<'a, W> {
    inner: W,
    pipe: &'a Pipe,
}

impl<'a, W> Remarks<'a, W> {
    pub(crate) fn new(inner: W, pipe: &'a Pipe) -> Self {
        Remarks { inner, pipe }
    }
}

impl<'a, W: Write> Write for Remarks<'a, W> {
    fn write(&mut self, buf: &[u8]) -> Result<usize> {
        if self.pipe.is_closed() {
            return Ok(buf.len());
        }
        self.inner.write(buf)
    }

    fn flush(&mut self) -> Result<()> {
        self.inner.flush()
    }
}
