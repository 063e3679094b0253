//! Where the files of a job come from.

ghost use Rattle.std.specs.Prelude.{◌≡◌, ℕ, List, Option, IfErr, IfOk};
ghost use Rattle.std.specs.IoError.{error_kind};
ghost use Rattle.std.specs.declared.io.ErrorKind.{ErrorKind};
ghost use Rattle.bk_jobs.specs.Reads.{IsFresh, device_of, unopened};

use bk_frames::{Counted, Failed, Source};
use std::fs::OpenFile;
use std::rt::Files;
use std::{fs, io};

/// What opens one file, for reading alone.
pub trait Opens {
    /// What is read.
    type File: Source + Drop;

    /// A file of this path gives these bytes from its beginning to its end, where they are known.
    ghost holds: { List ℕ → Option (List ℕ) → Type 0 };

    /// A file of this path cannot be opened, which is an error of this kind.
    ghost lacks: { List ℕ → ErrorKind → Type 0 };

    /// Opens a file at its beginning, and tells how many bytes it has, where that is known. It takes what opens, so that a
    /// pipe is opened once: opened again, it would go on.
    fn open(self, path: &str) -> io::Result<(Self::File, Option<u64>)>
        ensures opened { IfOk result (λ o. holds path.now (Self.File.state o.0).bytes) }
        ensures fresh { IfOk result (λ o. IsFresh (Self.File.state o.0)) }
        ensures unopened { IfErr result (λ error. lacks path.now (error_kind error)) };
}

/// What a file of a job is read through: an open file, or standard input in its place.
#[derive(Drop)]
pub enum Stream<F, I> {
    /// A file that was opened.
    File(F),
    /// Standard input.
    Input(I),
}

impl<F: Source, I: Source> Source for Stream<F, I> {
    ghost state = { λ s. device_of F.state I.state s };

    fn failures(&self) -> u64 {
        match self {
            Stream::File(file) => file.failures(),
            Stream::Input(input) => input.failures(),
        }
    }

    fn pull(&mut self, buf: &mut [u8]) -> Result<usize, Failed> {
        match self {
            Stream::File(file) => file.pull(buf),
            Stream::Input(input) => input.pull(buf),
        }
    }
}

/// What a job can read: what opens its first file, what opens its second, and standard input. Each is taken where it is
/// used, and what it is read through is left here.
#[derive(Drop)]
pub struct Access<N, F, I> {
    /// What opens the first file.
    pub first: Option<N>,
    /// What opens the second.
    pub second: Option<N>,
    /// Standard input.
    pub input: Option<I>,
    /// What the first is read through, from when it is opened.
    pub first_read: Option<Stream<F, I>>,
    /// What the second is read through, from when it is opened.
    pub second_read: Option<Stream<F, I>>,
}

impl<N, F, I> Access<N, F, I> {
    /// With nothing opened.
    pub fn new(first: N, second: N, input: I) -> Self
        ensures { result ≡ unopened first second input }
    {
        Access {
            first: Some(first),
            second: Some(second),
            input: Some(input),
            first_read: None,
            second_read: None,
        }
    }
}

/// A file of the system: what has `Inputs` can open one and write none.
#[derive(Drop)]
pub struct Inputs<'a, F> {
    system: &'a F,
}

impl<'a, F> Inputs<'a, F> {
    /// One of this system.
    pub fn new(system: &'a F) -> Self {
        Inputs { system }
    }
}

// How many bytes an open file has: a pipe or a terminal has no size.
fn size_of(file: &impl OpenFile) -> Option<u64> {
    match file.metadata() {
        Ok(found) if found.is_file() => Some(found.len()),
        _ => None,
    }
}

/// What a file of the system holds, and why it is not opened, is in no contract.
impl<'a, F: Files> Opens for Inputs<'a, F> {
    type File = Counted<F::File>;

    ghost holds = { λ path bytes. Unit {0} };

    ghost lacks = { λ path kind. Unit {0} };

    fn open(self, path: &str) -> io::Result<(Counted<F::File>, Option<u64>)> {
        let file = fs::open(self.system, path)?;
        let size = size_of(&file);
        Ok((Counted::new(file), size))
    }
}
