//! The counts, and the line that shows them.

use crate::watcher::Watcher;
use bk_pool::Gate;
use std::sync::atomic::{AtomicBool, AtomicU64, Ordering};
use std::time::{Clock, Instant};

// The clock is read each time that this number of bytes was read, or of transactions executed.
const BYTES: u64 = 65_536;

const PLACES: u64 = 1_024;

/// How progress is shown.
#[derive(Clone, Copy, Debug, PartialEq, Eq)]
pub enum Manner {
    /// Not at all.
    Hidden,
    /// In lines, one in a second.
    Lines,
    /// In one line of a terminal, which is rewritten.
    Terminal,
}

impl Manner {
    // How many milliseconds are between two lines.
    fn pause(self) -> u64 {
        match self {
            Manner::Hidden => u64::MAX,
            Manner::Lines => 1_000,
            Manner::Terminal => 100,
        }
    }
}

/// How far a job is.
#[derive(Drop)]
pub struct Progress<'a, R> {
    rt: &'a R,
    manner: Manner,
    // When it began; none where the clock cannot be read, and then nothing is shown.
    start: Option<Instant>,
    // How many bytes the files have, those whose size is known, and whether it is known of all.
    size: AtomicU64,
    sized: AtomicBool,
    bytes: AtomicU64,
    places: AtomicU64,
    // The milliseconds after the start at which the next line is due.
    due: AtomicU64,
}

impl<'a, R: Clock> Progress<'a, R> {
    /// Begins with nothing read and nothing executed.
    pub fn new(rt: &'a R, manner: Manner) -> Self {
        let start = match manner {
            Manner::Hidden => None,
            Manner::Lines | Manner::Terminal => Instant::now(rt).ok(),
        };
        Progress {
            rt,
            manner,
            start,
            size: AtomicU64::new(0),
            sized: AtomicBool::new(true),
            bytes: AtomicU64::new(0),
            places: AtomicU64::new(0),
            due: AtomicU64::new(manner.pause()),
        }
    }
}

impl<'a, R: Clock + Eprint> Progress<'a, R> {
    /// Counts a file that is going to be read: its size in bytes, where that is known.
    pub fn expect(&self, size: Option<u64>) {
        match size {
            Some(size) => {
                self.size.fetch_add(size, Ordering::SeqCst);
            }
            None => self.sized.store(false, Ordering::SeqCst),
        }
    }

    /// Counts bytes that were read.
    pub fn read(&self, count: usize) {
        if self.start.is_none() {
            return;
        }
        let count = count as u64;
        let before = self.bytes.fetch_add(count, Ordering::SeqCst);
        if before / BYTES != before.wrapping_add(count) / BYTES {
            self.tell();
        }
    }

    // Counts a transaction that was executed.
    fn executed(&self) {
        if self.start.is_none() {
            return;
        }
        let before = self.places.fetch_add(1, Ordering::SeqCst);
        if before.wrapping_add(1) % PLACES == 0 {
            self.tell();
        }
    }

    // Whether a line is due, which is then taken by this call.
    fn is_due(&self) -> bool {
        let Some(start) = self.start else {
            return false;
        };
        let Ok(passed) = start.elapsed(self.rt) else {
            return false;
        };
        let now = u64::try_from(passed.as_millis()).unwrap_or(u64::MAX);
        let due = self.due.load(Ordering::SeqCst);
        let next = now.saturating_add(self.manner.pause());
        now >= due
            && self
                .due
                .compare_exchange(due, next, Ordering::SeqCst, Ordering::SeqCst)
                .is_ok()
    }

    // Tells how far the job is, where a line is due.
    fn tell(&self) {
        if self.is_due() {
            self.begin_line();
            self.tell_counts();
            self.end_line();
        }
    }

    // A line that cannot be written is dropped.
    fn begin_line(&self) {
        if self.manner == Manner::Terminal {
            let _ = self.rt.eprint("\r");
        }
    }

    fn tell_counts(&self) {
        let places = self.places.load(Ordering::SeqCst);
        let bytes = self.bytes.load(Ordering::SeqCst);
        let size = self.size.load(Ordering::SeqCst);
        let _ = if places > 0 {
            eprint!(self.rt; "{places} transactions executed")
        } else if self.sized.load(Ordering::SeqCst) {
            eprint!(self.rt; "{bytes} of {size} bytes read")
        } else {
            eprint!(self.rt; "{bytes} bytes read")
        };
    }

    fn end_line(&self) {
        let _ = match self.manner {
            Manner::Terminal => self.rt.eprint("\u{1b}[K"),
            Manner::Hidden | Manner::Lines => self.rt.eprint("\n"),
        };
    }

    /// Whether anything is shown.
    pub fn is_shown(&self) -> bool {
        self.start.is_some()
    }
}

impl<'a, R: Clock + Eprint> Gate for Progress<'a, R> {
    fn inside(&self, _place: u32) {}

    fn left(&self, _place: u32) {
        self.executed();
    }
}

impl<'a, R: Clock + Eprint> Watcher for Progress<'a, R> {
    // The line of a terminal is cleared.
    fn ended(&self) {
        if self.manner == Manner::Terminal {
            let _ = self.rt.eprint("\r\u{1b}[K");
        }
    }
}
