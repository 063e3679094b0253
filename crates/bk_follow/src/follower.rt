//! A feed that is followed as it comes.

ghost use Rattle.std.specs.Prelude.{◌≡◌, ℕ, List, None, Some, Err, OnOk, IfOk, IfErr, IfSome};
ghost use Rattle.bk_base.specs.Feed.{Frame};
ghost use Rattle.bk_follow.specs.Follower.{unfed, broken, HasCome, Takes, FeedFails, Settles, SettleFails, StaysSettled, receipts_in};
ghost use Rattle.bk_follow.specs.Finishing.{Closes, CloseFails};
ghost use Rattle.bk_follow.specs.Queries.{EndsNot};
ghost use Rattle.bk_follow.specs.private.Parts.{EndsHere, followed, followed_with, after_fault};
ghost use Rattle.bk_follow.specs.Stopping.{kept_fault, stops};

use crate::fault::Fault;
use crate::gathering::Inbox;
use crate::settings::Settings;
use bk_base::Workers;
use bk_pool::Gate;
use std::alloc::Global;
use std::marker::Model;
use std::mem::{forget, replace};
use std::sync::Wait;
use std::thread::Threads;

/// Follows a feed that comes in pieces: its frames, their order and the accounts after its batches.
///
/// A fault of kind `Feed`, `Memory`, `Unfinished` or `Write` is returned again by every later call, and the Follower holds
/// nothing else from then on. A `Collision` or an `Equivocation` leaves everything as it was, and more pieces may be fed.
#[derive(Drop)]
pub struct Follower {
    pub(crate) alloc: Global,
    pub(crate) workers: Workers,
    pub(crate) gathered: Inbox,
    pub(crate) fault: Option<Fault>,
}

impl Model for Follower {
    ghost use Rattle.std.specs.Prelude.{◌≡◌, ℕ, List, None, IfSome};
    ghost use Rattle.bk_base.specs.Feed.{Frame};
    ghost use Rattle.bk_follow.specs.Follower.{Followed, HasCome, unfed};
    ghost use Rattle.bk_follow.specs.private.Parts.{followed};

    ghost Value = { Followed };

    ghost view = { λ f. record {
      cut = f.gathered.cutter;
      committee = f.gathered.opened.committee;
      book = f.gathered.opened.book;
      fault = f.fault;
    } };

    ghost invariant = { λ f. (f.fault ≡ None
        → (bytes : List ℕ) × (frames : List Frame)
        × HasCome bytes frames (followed f.gathered.cutter f.gathered.opened))
        × IfSome f.fault (λ _. followed f.gathered.cutter f.gathered.opened ≡ unfed) };
}

/// Whether a fault is a stop of the feed, which may go on.
pub fn is_stop(fault: &Fault) -> bool
    ensures { result ≡ stops fault.now }
{
    match fault {
        Fault::Collision { .. } | Fault::Equivocation { .. } => true,
        Fault::Feed(_) | Fault::Unfinished { .. } | Fault::Write { .. } | Fault::Memory => false,
    }
}

/// Keeps a fault, which every later call returns, and gives back all else.
pub(crate) fn latch(
    alloc: Global,
    gathered: &mut Inbox,
    standing: &mut Option<Fault>,
    fault: Fault,
) -> Fault
    ensures emptied { followed gathered.new.cutter gathered.new.opened ≡ unfed }
    ensures standing { standing.new ≡ Some fault }
    ensures same { result ≡ fault }
{
    let key = gathered.opened.key;
    drop(replace(gathered, Inbox::new(alloc, key)));
    let again = fault;
    *standing = Some(again);
    fault
}

/// Keeps a fault that is no stop, and gives back all else. A stop changes nothing.
pub(crate) fn latch_unless_stop(
    alloc: Global,
    gathered: &mut Inbox,
    standing: &mut Option<Fault>,
    fault: Fault,
) -> Fault
    requires none { standing.old ≡ None }
    ensures left { followed_with gathered.new.cutter gathered.new.opened standing.new
        ≡ after_fault fault (followed gathered.old.cutter gathered.old.opened) }
    ensures emptied { IfSome standing.new
        (λ _. followed gathered.new.cutter gathered.new.opened ≡ unfed) }
    ensures standing { standing.new ≡ kept_fault fault }
    ensures same { result ≡ fault }
{
    if is_stop(&fault) {
        return fault;
    }
    latch(alloc, gathered, standing, fault)
}

impl Follower {
    /// Before the first byte. Takes no memory.
    pub fn new(alloc: Global, settings: Settings) -> Follower
        ensures { result ≡ unfed }
    {
        Follower {
            alloc,
            workers: settings.workers,
            gathered: Inbox::new(alloc, settings.key),
            fault: None,
        }
    }

    /// Gives its memory back. A caller that owns a Follower ends with this call: its own proof then need not go through
    /// all that a Follower holds.
    pub fn discard(self) {
        let Follower { gathered, .. } = self;
        drop(gathered);
    }

    /// Gives its memory back; or leaves it to the end of the process, which gives all of it back at once: a deep feed takes
    /// longer to give back a certificate at a time than to write its report.
    pub(crate) fn end(self, is_last: bool) {
        if is_last {
            forget(self);
        } else {
            self.discard();
        }
    }

    /// The fault that every later call returns, if there is one. Then the Follower holds nothing else: no order, no
    /// accounts, and its offset is 0.
    pub fn fault(&self) -> Option<Fault>
        ensures is { result ≡ self.now.fault }
        ensures broken { IfSome result (λ f. self.now ≡ broken f) }
    {
        self.fault
    }

    /// The offset of the frame that is being read, 0 while that is the magic.
    pub fn offset(&self) -> u64
        ensures { result ≡ self.now.cut.offset }
    {
        self.gathered.cutter.offset()
    }

    /// Takes the next piece of the feed. Certificates are judged on as many threads as there are processors.
    ///
    /// A fault of the feed comes with the first byte that shows it; bytes that are only cut short are none here, and
    /// neither are collisions and twins. The order stays as it was settled last.
    pub fn feed<R: Threads + Sync>(&mut self, rt: &R, piece: &[u8]) -> Result<(), Fault>
        ensures takes { OnOk result (Takes self.old piece.now self.new) }
        ensures stays { OnOk result (StaysSettled self.old.book self.new.book) }
        ensures rests { OnOk result (receipts_in self.new.book ≡ receipts_in self.old.book) }
        ensures works { OnOk result ((self.old.fault ≡ None) × (self.new.fault ≡ None)) }
        ensures again { IfSome self.old.fault (λ f. (result ≡ Err f) × (self.new ≡ self.old)) }
        ensures broken { IfErr result (λ f. self.new ≡ broken f) }
        ensures fault { IfErr result (λ f. self.old.fault ≡ None → FeedFails self.old piece.now f) }
    {
        if let Some(fault) = self.fault {
            return Err(fault);
        }
        match self.gathered.feed(rt, self.alloc, piece) {
            Ok(()) => Ok(()),
            Err(fault) => Err(latch(self.alloc, &mut self.gathered, &mut self.fault, fault)),
        }
    }

    /// Settles the order of the whole frames so far, and executes the transactions that it adds. Returns how many they
    /// are: 0 before the genesis is whole.
    ///
    /// `Collision` or `Equivocation` where the frames so far are stopped: then nothing is executed, and everything is as
    /// it was.
    pub fn settle<R: Threads + Wait + Sync, G: Gate + Sync>(
        &mut self,
        rt: &R,
        gate: &G,
    ) -> Result<usize, Fault>
        ensures settled { IfOk result (λ n. Settles self.old self.new n) }
        ensures works { OnOk result ((self.old.fault ≡ None) × (self.new.fault ≡ None)) }
        ensures again { IfSome self.old.fault (λ f. (result ≡ Err f) × (self.new ≡ self.old)) }
        ensures fault { IfErr result (λ f. self.old.fault ≡ None
            → SettleFails self.old self.new f) }
    {
        if let Some(fault) = self.fault {
            return Err(fault);
        }
        let Some(book) = &mut self.gathered.opened.book else {
            return Ok(0);
        };
        match book.settle(rt, self.workers, gate) {
            Ok(count) => Ok(count),
            Err(fault) => Err(latch_unless_stop(
                self.alloc,
                &mut self.gathered,
                &mut self.fault,
                fault,
            )),
        }
    }

    /// Whether the feed may end here. Else it has failed.
    pub(crate) fn end_here(&mut self) -> Result<(), Fault>
        ensures ends { OnOk result (EndsHere self.old) }
        ensures stays { OnOk result (self.new ≡ self.old) }
        ensures again { IfSome self.old.fault (λ f. (result ≡ Err f) × (self.new ≡ self.old)) }
        ensures fault { IfErr result (λ f. self.old.fault ≡ None
            → EndsNot self.old f × (self.new ≡ broken f)) }
    {
        if let Some(fault) = self.fault {
            return Err(fault);
        }
        match self.gathered.cutter.end() {
            Ok(()) => Ok(()),
            Err(found) => Err(latch(
                self.alloc,
                &mut self.gathered,
                &mut self.fault,
                Fault::Feed(found),
            )),
        }
    }

    /// Settles the feed that ends here. After `Ok`, `Collision` or `Equivocation` it may go on.
    pub fn close<R: Threads + Wait + Sync, G: Gate + Sync>(
        &mut self,
        rt: &R,
        gate: &G,
    ) -> Result<(), Fault>
        ensures closed { OnOk result (Closes self.old self.new) }
        ensures works { OnOk result ((self.old.fault ≡ None) × (self.new.fault ≡ None)) }
        ensures again { IfSome self.old.fault (λ f. (result ≡ Err f) × (self.new ≡ self.old)) }
        ensures fault { IfErr result (λ f. self.old.fault ≡ None → CloseFails self.old self.new f) }
    {
        self.end_here()?;
        self.settle(rt, gate)?;
        Ok(())
    }
}
