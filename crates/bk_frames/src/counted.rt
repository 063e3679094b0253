ghost use Rattle.std.specs.Prelude.{◌≡◌};
ghost use Rattle.bk_frames.specs.Counting.{inner_of, failures_of};
ghost use Rattle.bk_frames.specs.Device.{plain};

use crate::device::{Failed, Sink, Source};
use std::io::{Read, Write};

/// A reader or a writer with a count of its failed calls. It is a [`Source`] where `T` reads and a [`Sink`] where
/// `T` writes. An error of any kind is a failure, and so is a write that takes nothing; nothing is tried again.
#[derive(Debug, Drop)]
pub struct Counted<T> {
    inner: T,
    failures: u64,
}

impl<T> Counted<T> {
    /// Begins with no failure.
    pub fn new(inner: T) -> Self
        ensures inner { inner_of result ≡ inner }
        ensures failures { failures_of result ≡ 0 }
    {
        Counted { inner, failures: 0 }
    }

    /// Gives the reader or writer back.
    pub fn into_inner(self) -> T
        ensures { result ≡ inner_of self }
    {
        let Counted { inner, failures: _ } = self;
        inner
    }
}

impl<R: Read> Source for Counted<R> {
    ghost state = { λ c. plain (R.remaining c.inner) c.failures };

    fn failures(&self) -> u64 {
        self.failures
    }

    fn pull(&mut self, buf: &mut [u8]) -> Result<usize, Failed> {
        match self.inner.read(buf) {
            Ok(n) => Ok(n),
            Err(_) => {
                self.failures += 1;
                Err(Failed)
            }
        }
    }
}

impl<W: Write> Sink for Counted<W> {
    ghost state = { λ c. plain (W.contents c.inner) c.failures };

    fn failures(&self) -> u64 {
        self.failures
    }

    fn push(&mut self, bytes: &[u8]) -> Result<usize, Failed> {
        match self.inner.write(bytes) {
            Ok(n) if n > 0 || bytes.is_empty() => Ok(n),
            _ => {
                self.failures += 1;
                Err(Failed)
            }
        }
    }
}
