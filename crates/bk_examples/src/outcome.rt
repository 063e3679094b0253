//! What a command line leaves.

use anyhow::{Result, bail};
use bk_cli::{Exit, parse_line};
use bk_frames::Counted;
use bk_jobs::{Access, Inputs, open_and_run};
use bk_progress::{Manner, Progress};
use clap::Error;
use clap::error::ErrorKind;
use std::alloc::Global;
use std::random::RandomSource;
use std::rt::Files;
use std::sync::Wait;
use std::thread::Threads;
use std::time::Clock;

/// What a command line leaves.
#[derive(Drop)]
pub(crate) struct Outcome {
    pub(crate) status: u8,
    /// Standard output.
    pub(crate) out: Vec<u8>,
    /// Standard error.
    pub(crate) err: Vec<u8>,
}

impl Outcome {
    /// Whether both ended with the same status and wrote the same.
    pub(crate) fn is_same(&self, other: &Outcome) -> bool {
        self.status == other.status
            && self.out.as_slice() == other.out.as_slice()
            && self.err.as_slice() == other.err.as_slice()
    }

    /// Whether just these bytes were printed, all of them on standard output or all on standard error; of a command that
    /// may write to both, first those on standard output.
    pub(crate) fn has_printed(&self, wanted: &[u8], writes_both: bool) -> bool {
        if self.err.is_empty() {
            return self.out.as_slice() == wanted;
        }
        if self.out.is_empty() {
            return self.err.as_slice() == wanted;
        }
        writes_both
            && wanted.len().checked_sub(self.out.len()) == Some(self.err.len())
            && wanted.starts_with(self.out.as_slice())
            && wanted.ends_with(self.err.as_slice())
    }
}

// What a fault of the words leaves. The program prints its text, and ends with `No`; only the first line is kept, the
// others are the usage.
fn refused(alloc: Global, error: &Error) -> Result<Outcome> {
    if error.kind() == ErrorKind::OutOfMemory {
        bail!("memory ran out");
    }
    let text = error.to_string(alloc)?;
    let mut err = Vec::from_slice(alloc, text.lines().next().unwrap_or("").as_bytes())?;
    err.push(b'\n')?;
    Ok(Outcome {
        status: Exit::No.number(),
        out: Vec::new(alloc),
        err,
    })
}

/// Runs a command line whose input is in files.
pub(crate) fn outcome_of<R>(rt: &R, words: &[&str]) -> Result<Outcome>
where
    R: AllocGlobal + Files + Input + Eprint + Clock + RandomSource + Threads + Wait + Sync,
{
    let alloc: Global = rt.alloc();
    let line = match parse_line(alloc, words) {
        Ok(line) => line,
        Err(error) => return refused(alloc, &error),
    };
    let mut out = Counted::new(Vec::new(alloc));
    let mut err = Counted::new(Vec::new(alloc));
    let hidden = Progress::new(rt, Manner::Hidden);
    let input = Counted::new(rt.reader());
    let mut access = Access::new(Inputs::new(rt), Inputs::new(rt), input);
    let exit = open_and_run(&mut access, rt, &line, &hidden, &mut out, &mut err);
    Ok(Outcome {
        status: exit.number(),
        out: out.into_inner(),
        err: err.into_inner(),
    })
}
