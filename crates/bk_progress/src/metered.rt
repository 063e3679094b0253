//! A source whose bytes are counted.

ghost use Rattle.std.specs.Prelude.{◌≡◌};
ghost use Rattle.bk_progress.specs.Metering.{source_of};

use crate::progress::Progress;
use bk_frames::{Failed, Source};
use std::time::Clock;

/// A source that counts the bytes that are pulled of it. Its contracts are those of the source in it.
#[derive(Drop)]
pub struct Metered<'a, S, R> {
    source: S,
    progress: &'a Progress<'a, R>,
}

impl<'a, S, R> Metered<'a, S, R> {
    /// The source, whose bytes are counted there.
    pub fn new(source: S, progress: &'a Progress<'a, R>) -> Self
        ensures { source_of result ≡ source }
    {
        Metered { source, progress }
    }

    /// Gives the source back.
    pub fn into_inner(self) -> S
        ensures { result ≡ source_of self.entry }
    {
        let Metered {
            source,
            progress: _,
        } = self;
        source
    }
}

impl<'a, S: Source, R: Clock + Eprint> Source for Metered<'a, S, R> {
    ghost state = { λ m. S.state (source_of m) };

    fn failures(&self) -> u64 {
        self.source.failures()
    }

    fn pull(&mut self, buf: &mut [u8]) -> Result<usize, Failed> {
        let pulled = self.source.pull(buf);
        if let Ok(count) = pulled {
            self.progress.read(count);
        }
        pulled
    }
}
