//! What progress shows, by a clock that goes on at each look at it.

use bk_pool::Gate;
use bk_progress::{Manner, Progress, Watcher};
use std::alloc::Global;
use std::cell::{Cell, RefCell};
use std::fmt::Display;
use std::io;
use std::time::{Clock, Duration};

// Standard error, and a clock that goes on by a number of milliseconds at each look.
#[derive(Drop)]
struct Fake {
    alloc: Global,
    step: u64,
    now: Cell<u64>,
    said: RefCell<Vec<u8>>,
}

impl Fake {
    fn new(alloc: Global, step: u64) -> Fake {
        Fake {
            alloc,
            step,
            now: Cell::new(0),
            said: RefCell::new(Vec::new(alloc)),
        }
    }

    // Whether just this was said.
    fn has_said(self, wanted: &[u8]) -> bool {
        let said = self.said.into_inner();
        said.as_slice() == wanted
    }
}

impl Clock for Fake {
    fn monotonic(&self) -> io::Result<Duration> {
        let now = self.now.get();
        self.now.set(now.saturating_add(self.step));
        Ok(Duration::from_millis(now))
    }

    fn since_1970(&self) -> io::Result<Duration> {
        self.monotonic()
    }
}

impl Eprint for Fake {
    fn eprint<D: Display + Drop>(&self, value: D) -> io::Result<()> {
        let text = format!(in self.alloc; "{value}")?;
        if let Ok(mut said) = self.said.try_borrow_mut() {
            said.extend_from_slice(text.as_bytes())?;
        }
        Ok(())
    }

    fn eprintln<D: Display + Drop>(&self, value: D) -> io::Result<()> {
        self.eprint(value)?;
        self.eprint("\n")
    }
}

// Reads 200,000 bytes, and executes three times 1,024 transactions.
fn read_and_execute(progress: &Progress<'_, Fake>) {
    progress.read(65_536);
    progress.read(65_536);
    progress.read(65_536);
    progress.read(3_392);
    for place in 0..3_072 {
        progress.inside(place);
        progress.left(place);
    }
    progress.ended();
}

// Tells of files of these sizes.
fn tell(fake: &Fake, manner: Manner, sizes: &[Option<u64>]) {
    let progress = Progress::new(fake, manner);
    for size in sizes {
        progress.expect(*size);
    }
    read_and_execute(&progress);
}

// Whether just this is said.
fn is_told(alloc: Global, step: u64, manner: Manner, sizes: &[Option<u64>], wanted: &[u8]) -> bool {
    let fake = Fake::new(alloc, step);
    tell(&fake, manner, sizes);
    fake.has_said(wanted)
}

/// Whether progress is shown as often as it has to be, and in the right words.
///
/// At a look each 600 milliseconds a line is due at the second, the fourth and the sixth look; at one each 60 milliseconds
/// too, where a terminal has a line each 100. Nothing is shown of what is over in a second, and nothing where it is hidden.
pub(crate) fn progress_is_told(alloc: Global) -> bool {
    let known = [Some(150_000), Some(50_000)];
    let unknown = [None, Some(5)];
    is_told(
        alloc,
        600,
        Manner::Lines,
        &known,
        b"131072 of 200000 bytes read\n1024 transactions executed\n3072 transactions executed\n",
    ) && is_told(
        alloc,
        60,
        Manner::Terminal,
        &unknown,
        b"\r131072 bytes read\x1b[K\r1024 transactions executed\x1b[K\r3072 transactions executed\x1b[K\r\x1b[K",
    ) && is_told(alloc, 100, Manner::Lines, &known, b"")
        && is_told(alloc, 5_000, Manner::Hidden, &unknown, b"")
}
