//! What is handed on from one thread to another, in order. Each of the two sleeps while it waits for the other, and wakes it
//! when it gives up its end.

ghost use Rattle.std.specs.Prelude.{◌≡◌, true, [], ◌∷◌, ◌++◌, IfOk, IfSome};
ghost use Rattle.rtrb.specs.Ring.{received, sent};

use crossbeam_utils::sync::{Parker, Unparker};
use rtrb::{Consumer, Producer, Protocol, PushError, RingBuffer};
use std::alloc::{AllocError, Global};
use std::sync::Wait;

// How many items may wait between two threads.
const AHEAD: usize = 2;

/// What a thread that hands items on has of it. `P` says which may follow which.
pub(crate) struct Giving<T: Drop, P: Protocol<T>> {
    pub(crate) giver: Producer<T, Global, P>,
    // Wakes the thread that takes them.
    next: Unparker,
}

/// What a thread that takes items has of it.
pub(crate) struct Taking<T: Drop, P: Protocol<T>> {
    pub(crate) taker: Consumer<T, Global, P>,
    // Wakes the thread that hands them on.
    before: Unparker,
}

/// A place where items are handed on from one thread to another, which sleep by these. The first one is handed on and taken
/// here, so that both know it: what may follow can depend on it.
pub(crate) fn hands<T: Drop, P: Protocol<T>>(
    alloc: Global,
    first: T,
    from: &Parker,
    to: &Parker,
) -> Result<(Giving<T, P>, Taking<T, P>), AllocError>
    requires { P.allows [] first }
    ensures gives { IfOk result (λ r. sent r.0.giver ≡ first ∷ []) }
    ensures takes { IfOk result (λ r. received r.1.taker ≡ first ∷ []) }
{
    let next = to.unparker().clone()?;
    let before = from.unparker().clone()?;
    let (mut giver, mut taker) = RingBuffer::with_protocol::<Global, P>(alloc, AHEAD)?;
    giver.push_reserved(first);
    taker.slots_beside(&mut giver);
    let _ = taker.pop_known();
    Ok((Giving { giver, next }, Taking { taker, before }))
}

impl<T: Drop, P: Protocol<T>> Giving<T, P> {
    /// Hands an item on, once there is room. False where nobody takes any more.
    pub(crate) fn hand_on(&mut self, rt: &impl Wait, item: T, own: &Parker) -> bool
        requires allowed { P.allows (sent self.old.giver) item }
        ensures sent { result ≡ true
            → sent self.new.giver ≡ sent self.old.giver ++ item ∷ [] }
    {
        let mut item = item;
        for _ in rt.forever() {
            match self.giver.push(item) {
                Ok(()) => {
                    self.next.unpark();
                    return true;
                }
                Err(PushError::Full(back)) => item = back,
            }
            if self.giver.is_abandoned() {
                return false;
            }
            own.park(rt);
        }
        unreachable!()
    }
}

// Wherever it is given up, the other thread must not wait for it.
impl<T: Drop, P: Protocol<T>> Drop for Giving<T, P> {
    fn drop(self) {
        let Giving { giver, next } = self;
        drop(giver);
        next.unpark();
    }
}

impl<T: Drop, P: Protocol<T>> Taking<T, P> {
    /// The next item, once it is there; none where no more comes.
    pub(crate) fn take_next(&mut self, rt: &impl Wait, own: &Parker) -> Option<T>
        ensures { IfSome result (λ x. (received self.new.taker ≡ received self.old.taker ++ x ∷ [])
            × P.allows (received self.old.taker) x) }
    {
        for _ in rt.forever() {
            if let Ok(item) = self.taker.pop() {
                self.before.unpark();
                return Some(item);
            }
            if self.taker.is_abandoned() {
                // Something may have been handed on since, the last.
                return self.taker.pop().ok();
            }
            own.park(rt);
        }
        unreachable!()
    }
}

// The same.
impl<T: Drop, P: Protocol<T>> Drop for Taking<T, P> {
    fn drop(self) {
        let Taking { taker, before } = self;
        drop(taker);
        before.unpark();
    }
}
