//! The hints of a pool: places are handed out in ascending order, a range at a time.
//!
//! In this order the plan and the words are read from front to back. A place that becomes ready
//! after its range was handed out goes to the end that made it ready. An end that has more than one
//! of these keeps the newest, and shares the others through its deque.
ghost use Rattle.std.specs.Prelude.{◌≡◌, ℕ, ◌<◌, ◌≤◌, IfOk, vec_len};

use crate::hints::Hints;
use crossbeam_deque::{Steal, Stealer, Worker};
use std::alloc::{AllocError, Global};
use std::hint::spin_loop;
use std::ops::Range;
use std::sync::atomic::{AtomicU64, Ordering};
use std::sync::{Arc, Wait};
use std::thread;

// How many places a deque holds before it grows.
const FIRST_ROOM: usize = 32;

// The most places in a range.
const LONGEST: u64 = 128;

// So many ranges for each end are cut from what is left, where that makes them shorter.
const PARTS: u64 = 4;

// How often an end that waits looks for a place at once, and how often in all before it sleeps.
const SPINS: u32 = 100;

const LOOKS: u32 = 1_000;

// What the ends of one execution share. Nothing in it is written for each place.
#[derive(Drop)]
struct Common {
    places: u32,
    ends: u64,
    // The places below it are in ranges that were handed out.
    taken: AtomicU64,
    stealers: Vec<Stealer<u32>>,
    // How many ends may have places to give: those that were asked for one, and do not wait.
    busy: AtomicU64,
    // Rises with a place that is shared while an end sleeps, and once no end is busy.
    signal: AtomicU64,
    sleepers: AtomicU64,
}

impl Common {
    fn new(alloc: Global, places: u32, ends: usize) -> Common {
        Common {
            places,
            ends: ends as u64,
            taken: AtomicU64::new(0),
            stealers: Vec::new(alloc),
            busy: AtomicU64::new(0),
            signal: AtomicU64::new(0),
            sleepers: AtomicU64::new(0),
        }
    }

    // Hands out the next range. It is empty where no place is left.
    fn next_range(&self) -> Range<u32> {
        let places = self.places as u64;
        let seen = self.taken.load(Ordering::SeqCst);
        if places <= seen {
            return 0..0;
        }
        let part = (places - seen) / PARTS / self.ends.max(1);
        let size = part.min(LONGEST).max(1);
        let from = self.taken.fetch_add(size, Ordering::SeqCst);
        if places <= from {
            return 0..0;
        }
        let end = from + size.min(places - from);
        from as u32..end as u32
    }

    // A place that another end shares.
    fn steal(&self, me: usize) -> Option<u32> {
        let ends = self.stealers.len();
        for i in 1..ends {
            if let Steal::Success(place) = self.stealers[me.wrapping_add(i) % ends].steal() {
                return Some(place);
            }
        }
        None
    }

    fn shares_any(&self) -> bool {
        self.stealers.iter().any(|stealer| !stealer.is_empty())
    }

    // A place was pushed to a deque. An end that goes to sleep counts itself as a sleeper, and then
    // looks into the deques: either it finds the place, or it is counted here. In that case it has
    // read the signal before, so that it does not sleep through the change.
    fn added(&self) {
        if self.sleepers.load(Ordering::SeqCst) != 0 {
            self.signal.fetch_add(1, Ordering::SeqCst);
            self.signal.wake_one();
        }
    }

    // An end has no place left. The last one wakes all that sleep.
    fn turn_idle(&self) {
        if self.busy.fetch_sub(1, Ordering::SeqCst) == 1 {
            self.signal.fetch_add(1, Ordering::SeqCst);
            self.signal.wake_all();
        }
    }

    // Waits for a place in a deque. `false` once no end is busy: then none will come, since an end
    // that waits has an empty deque, and is busy again before it takes a place of another's.
    fn wait<R: Wait>(&self, rt: &R) -> bool {
        self.turn_idle();
        let mut looks = 0;
        for _ in rt.forever() {
            if self.shares_any() {
                self.busy.fetch_add(1, Ordering::SeqCst);
                return true;
            }
            if self.busy.load(Ordering::SeqCst) == 0 {
                return false;
            }
            if looks < LOOKS {
                looks += 1;
                pause(looks);
            } else {
                self.sleep(rt);
            }
        }
        unreachable!()
    }

    // Sleeps until the signal rises. It rises after the last look here, if a place is pushed after
    // that look or if no end is busy any more.
    fn sleep<R: Wait>(&self, rt: &R) {
        self.sleepers.fetch_add(1, Ordering::SeqCst);
        let seen = self.signal.load(Ordering::SeqCst);
        if !self.shares_any() && self.busy.load(Ordering::SeqCst) != 0 {
            self.signal.park(rt, (seen % (1 << 32)) as u32);
        }
        self.sleepers.fetch_sub(1, Ordering::SeqCst);
    }
}

// What an end does between two looks: first hardly anything, then it lets other threads run.
fn pause(looks: u32) {
    if looks < SPINS {
        spin_loop();
    } else {
        thread::yield_now();
    }
}

// One worker's range and deque, and what it shares with the others.
pub(crate) struct End<R: Wait + Drop> {
    rt: R,
    me: usize,
    // The places of its range that are to be given.
    range: Range<u32>,
    // The place that became ready last. It is the next to be given.
    newest: Option<u32>,
    own: Worker<u32>,
    common: Arc<Common>,
    // Whether it counts as busy.
    busy: bool,
}

impl<R: Wait + Drop> End<R> {
    // Whether an end will still give the place, and looks at its word only after this call. A
    // release that made the place ready comes before the load of `taken`, and who hands the place
    // out raises `taken` first, so that the place is found ready.
    fn is_to_come(&self, place: u32) -> bool {
        self.range.contains(&place) || self.common.taken.load(Ordering::SeqCst) <= place as u64
    }

    // A place of the next range, or one that another end shares.
    fn find(&mut self) -> Option<u32> {
        if !self.busy {
            self.busy = true;
            self.common.busy.fetch_add(1, Ordering::SeqCst);
        }
        for _ in self.rt.forever() {
            self.range = self.common.next_range();
            if let Some(place) = self.range.next() {
                return Some(place);
            }
            if let Some(place) = self.common.steal(self.me) {
                return Some(place);
            }
            if !self.common.wait(&self.rt) {
                self.busy = false;
                return None;
            }
        }
        unreachable!()
    }
}

impl<R: Wait + Drop> Hints for End<R> {
    // A place for which memory is refused is lost.
    fn put(&mut self, place: u32) {
        if self.is_to_come(place) {
            return;
        }
        if let Some(earlier) = self.newest.replace(place) {
            if self.own.push(earlier).is_ok() {
                self.common.added();
            }
        }
    }

    // `None` once no end has a place. While others work it sleeps.
    fn take(&mut self) -> Option<u32> {
        if let Some(place) = self.newest.take() {
            return Some(place);
        }
        if let Some(place) = self.own.pop() {
            return Some(place);
        }
        if let Some(place) = self.range.next() {
            return Some(place);
        }
        self.find()
    }

    fn dealt(&mut self, _place: u32) {}
}

impl<R: Wait + Drop> Drop for End<R> {
    // A worker may stop before its end has no place left. The others do not wait for it.
    fn drop(self) {
        let End {
            rt: _,
            me: _,
            range: _,
            newest: _,
            own: _,
            common,
            busy,
        } = self;
        if busy {
            common.turn_idle();
        }
    }
}

// As many ends as there are to be workers, for so many places.
pub(crate) fn ends_for<R: Wait>(
    rt: &R,
    alloc: Global,
    places: u32,
    workers: usize,
) -> Result<Vec<End<&R>>, AllocError>
    ensures { IfOk result (λ ends. vec_len ends ≡ workers) }
{
    let mut common = Common::new(alloc, places, workers);
    let mut deques = Vec::new(alloc);
    for _ in 0..workers {
        let own = Worker::new_lifo(alloc, FIRST_ROOM)?;
        common.stealers.push(own.stealer()?)?;
        deques.push(own)?;
    }
    let common = Arc::new(alloc, common)?;
    let mut ends = Vec::new(alloc);
    for made in 0..workers {
        let Some(own) = deques.pop() else {
            unreachable!()
        };
        let common = Arc::try_clone(&common)?;
        ends.push(End {
            rt,
            me: workers - 1 - made,
            range: 0..0,
            newest: None,
            own,
            common,
            busy: false,
        })?;
    }
    Ok(ends)
}
