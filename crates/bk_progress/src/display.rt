//! Where progress is shown.

use crate::progress::{Manner, Progress};
use std::time::Clock;

/// Standard error and the clock, for progress. What has a `Display` writes the lines of a [`Progress`] and the line of
/// [`Display::typed`].
#[derive(Drop)]
pub struct Display<'a, P> {
    shows: &'a P,
    terminal: bool,
}

impl<'a, P> Display<'a, P> {
    /// Standard error may be a terminal, on which progress is shown in one line.
    pub fn new(shows: &'a P, terminal: bool) -> Self {
        Display { shows, terminal }
    }
}

impl<'a, P: Eprint> Display<'a, P> {
    /// Says that what is typed is read. A line that cannot be written is reported nowhere.
    pub fn typed(&self) {
        let _ = eprintln!(self.shows; "bkreplay: reading what is typed, up to Ctrl-D");
    }
}

impl<'a, P: Clock> Display<'a, P> {
    /// The progress of a job, which is hidden where it is not wanted.
    pub fn progress(&self, wanted: bool) -> Progress<'a, P> {
        let manner = match (wanted, self.terminal) {
            (false, _) => Manner::Hidden,
            (true, false) => Manner::Lines,
            (true, true) => Manner::Terminal,
        };
        Progress::new(self.shows, manner)
    }
}
