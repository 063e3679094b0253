//! The frames of a feed, taken in pieces, and their order.

ghost use Rattle.std.specs.Prelude.{◌≡◌, ◌++◌, ℕ, ◌+◌, ◌<◌, ◌^◌, [], List, Bool, true, false, OnOk, OnErr, IfOk, MatchOption, Some, length, slice_get};
ghost use Rattle.std.specs.Option.{option_copied};
ghost use Rattle.bk_base.specs.Feed.{Frame};
ghost use Rattle.bk_commit.specs.Ordering.{IsCommitted};
ghost use Rattle.bk_frames.specs.Cutting.{frames_in};
ghost use Rattle.bk_order.specs.Stops.{HasNoStop, IsStop};
ghost use Rattle.bk_order.specs.Orders.{AreRoundsOf, AreWaiting, IsOrderOf};
ghost use Rattle.bk_order.specs.Intake.{HasAsOrder, HasTaken, IsKeptOf, nothing_ordered};
ghost use Rattle.bk_order.specs.declared.settling.Settled.{Settled};
ghost use Rattle.bk_order.specs.private.Joined.{GoesOn, IsJoined, IsSettled, kept_in};

use crate::judging::{JudgedFrames, judge_all};
use crate::reject::Reject;
use crate::settling::{Settled, settle, unsettled};
use crate::stop::{Stop, stop_of, stop_of_both};
use crate::table::{Table, empty_table, keep_all};
use crate::tally::Tally;
use bk_base::Kind;
use bk_cert::CertRef;
use bk_committee::Committee;
use bk_digest::Digest32;
use bk_evidence::{Batches, Held};
use bk_index::HashKey;
use bk_rounds::Rounds;
use std::alloc::{AllocError, Global};
use std::marker::Model;
use std::thread::Threads;

/// The frames of a feed after the genesis, taken in pieces. Contracts see it as the committee, what
/// is kept of the frames, and their order as it was settled last.
///
/// `take` costs what its frames cost, and `settle` what the new anchors and their histories cost.
/// `stop_with` and `waiting` go over all certificates that are held, and so does `count_ordered`
/// where frames were taken since the order was settled. The others take O(log n) at most.
///
/// Where memory runs out in `take` or in `settle` the value has failed: every later call of these
/// two returns the same error, and what the others return of the order means nothing.
#[derive(Drop)]
pub struct Intake {
    alloc: Global,
    committee: Committee,
    table: Table,
    settled: Settled,
    // Whether that is the order of all frames that were taken.
    current: bool,
    failed: bool,
}

impl Model for Intake {
    ghost use Rattle.std.specs.Prelude.{◌≡◌, false, true};
    ghost use Rattle.bk_committee.specs.Payload.{IsCommittee};
    ghost use Rattle.bk_order.specs.Intake.{Taken};
    ghost use Rattle.bk_order.specs.private.Joined.{IsFollowed, IsJoined, IsSettled, kept_in, order_in};

    ghost Value = { Taken };

    ghost view = { λ s. record { committee = s.committee; kept = kept_in s.table; ordered = order_in s.table.batches s.settled; failed = s.failed } };

    ghost invariant = { λ s. s.failed ≡ false → IsJoined s.committee s.table.held s.table.rounds
        × IsFollowed s.table.rounds.sizes s.table.rounds.held s.table.batches s.settled
        × (s.current ≡ true
        → IsSettled s.table.rounds.sizes s.table.rounds.held s.table.batches s.settled) };
}

// How many certificates the order of what a table holds has.
fn count_anew(alloc: Global, table: &Table) -> Result<usize, AllocError>
    ensures { IfOk result (λ n. (s : Settled) × (n ≡ length s.flat)
        × IsSettled table.now.rounds.sizes table.now.rounds.held table.now.batches s) }
{
    let mut settled = unsettled(alloc, table.batches.key());
    settle(&mut settled, &table.rounds, &table.batches)?;
    Ok(settled.flat.order().len())
}

impl Intake {
    /// No frame after the genesis was taken. What is held is found by digests, hashed with this key.
    pub fn new(alloc: Global, committee: Committee, key: HashKey) -> Result<Intake, AllocError>
        ensures committee { IfOk result (λ v. v.committee ≡ committee) }
        ensures nothing { IfOk result (HasTaken []) }
        ensures unordered { IfOk result (λ v. v.ordered ≡ nothing_ordered) }
        ensures open { IfOk result (λ v. v.failed ≡ false) }
    {
        let table = empty_table(alloc, &committee, key)?;
        Ok(Intake {
            alloc,
            committee,
            table,
            settled: unsettled(alloc, key),
            current: false,
            failed: false,
        })
    }

    /// Takes the next frames. A committee or a genesis among them counts as a frame of which
    /// nothing is held.
    ///
    /// An `Err` comes only where memory runs out, in this call or in an earlier one.
    pub fn take(
        &mut self,
        rt: &(impl Threads + Sync),
        frames: Vec<(Kind, Vec<u8>)>,
    ) -> Result<(), AllocError>
        requires room { self.old.kept.next + length frames.items < 2 ^ 64 }
        ensures taken { OnOk result ((before : List Frame) → HasTaken before self.old
            → HasTaken (before ++ frames_in frames.items) self.new) }
        ensures committee { self.new.committee ≡ self.old.committee }
        ensures order { OnOk result (self.new.ordered ≡ self.old.ordered) }
        ensures open { OnOk result ((self.old.failed ≡ false) × (self.new.failed ≡ false)) }
        ensures failed { OnErr result (self.new.failed ≡ true) }
    {
        if self.failed {
            return Err(AllocError);
        }
        match judge_all(rt, self.alloc, &self.committee, frames) {
            Ok(judged) => self.take_judged(judged),
            Err(error) => {
                self.failed = true;
                Err(error)
            }
        }
    }

    /// Takes the next frames, once they were judged by this committee: the same as `take`.
    ///
    /// An `Err` comes only where memory runs out, in this call or in an earlier one.
    pub fn take_judged(&mut self, judged: JudgedFrames) -> Result<(), AllocError>
        requires mine { judged.committee ≡ self.old.committee }
        requires room { self.old.kept.next + length judged.frames < 2 ^ 64 }
        ensures taken { OnOk result ((before : List Frame) → HasTaken before self.old
            → HasTaken (before ++ judged.frames) self.new) }
        ensures committee { self.new.committee ≡ self.old.committee }
        ensures order { OnOk result (self.new.ordered ≡ self.old.ordered) }
        ensures open { OnOk result ((self.old.failed ≡ false) × (self.new.failed ≡ false)) }
        ensures failed { OnErr result (self.new.failed ≡ true) }
    {
        if self.failed {
            return Err(AllocError);
        }
        self.current = false;
        match keep_all(self.alloc, &self.committee, &mut self.table, judged) {
            Ok(()) => Ok(()),
            Err(error) => {
                self.failed = true;
                Err(error)
            }
        }
    }

    /// The committee.
    pub fn committee(&self) -> &Committee
        ensures { result.now ≡ self.now.committee }
    {
        &self.committee
    }

    /// Whether memory ran out in an earlier call.
    pub fn failed(&self) -> bool
        ensures { result ≡ self.now.failed }
    {
        self.failed
    }

    /// How many frames there were, with the committee and the genesis: the number of the next one.
    pub fn next(&self) -> u64
        ensures { result ≡ self.now.kept.next }
    {
        self.table.next
    }

    /// The frames that hold no good certificate, in the order of the feed.
    pub fn rejected(&self) -> &[Reject]
        ensures { result.now ≡ self.now.kept.rejected }
    {
        self.table.rejected.as_slice()
    }

    /// How many there are of what the frames hold.
    pub fn tally(&self) -> Tally
        ensures { result ≡ self.now.kept.tally }
    {
        self.table.tally
    }

    /// The good certificates, each once, those of collisions and twins too.
    pub fn held(&self) -> &Held
        ensures { result.now ≡ self.now.kept.certs }
    {
        &self.table.held
    }

    /// The batches, each once, those of collisions too.
    pub fn stored(&self) -> &Batches
        ensures { result.now ≡ self.now.kept.batches }
    {
        &self.table.batches
    }

    /// The stop of the frames so far, if they have one.
    pub fn stop(&self) -> Option<Stop>
        ensures { (frames : List Frame) → HasTaken frames self.now → MatchOption result
            (HasNoStop self.now.committee frames) (IsStop self.now.committee frames) }
    {
        stop_of(&self.table.held, &self.table.batches)
    }

    /// The stop of the frames of both together, if they have one. Neither changes.
    ///
    /// It takes time and memory for a table of the certificates of both, and an `Err` comes only
    /// where memory runs out.
    pub fn stop_with(&self, other: &Intake) -> Result<Option<Stop>, AllocError>
        requires { self.now.committee ≡ other.now.committee }
        ensures { IfOk result (λ found. (frames more : List Frame) → HasTaken frames self.now
            → HasTaken more other.now → MatchOption found
            (HasNoStop self.now.committee (frames ++ more))
            (IsStop self.now.committee (frames ++ more))) }
    {
        let one = &self.table;
        let two = &other.table;
        let found = stop_of_both(&one.held, &two.held, &one.batches, &two.batches)?;
        Ok(found)
    }

    /// Settles the order of the frames so far. It costs what the new anchors and their histories
    /// cost. While the frames have a stop, it means nothing.
    ///
    /// An `Err` comes only where memory runs out, in this call or in an earlier one.
    pub fn settle(&mut self) -> Result<(), AllocError>
        ensures order { OnOk result ((frames : List Frame) → HasTaken frames self.new
            → HasNoStop self.new.committee frames
            → IsOrderOf self.new.committee frames self.new.ordered) }
        ensures committee { self.new.committee ≡ self.old.committee }
        ensures kept { self.new.kept ≡ self.old.kept }
        ensures open { OnOk result ((self.old.failed ≡ false) × (self.new.failed ≡ false)) }
        ensures failed { OnErr result (self.new.failed ≡ true) }
    {
        if self.failed {
            return Err(AllocError);
        }
        match settle(&mut self.settled, &self.table.rounds, &self.table.batches) {
            Ok(()) => {
                self.current = true;
                Ok(())
            }
            Err(error) => {
                self.failed = true;
                Err(error)
            }
        }
    }

    /// How many certificates the order of all frames so far has. Where frames were taken since it was
    /// settled, it is found from the beginning, and not kept.
    ///
    /// An `Err` comes only where memory runs out.
    pub fn count_ordered(&self) -> Result<usize, AllocError>
        ensures { IfOk result (λ n. self.now.failed ≡ false
            → HasAsOrder self.now.committee self.now.kept n) }
    {
        if self.current {
            return Ok(self.settled.flat.order().len());
        }
        let count = count_anew(self.alloc, &self.table)?;
        Ok(count)
    }

    /// The committed anchors as they were settled last, oldest first.
    pub fn anchors(&self) -> &[CertRef]
        ensures { result.now ≡ self.now.ordered.anchors }
    {
        self.settled.walk.anchors()
    }

    /// The certificates in order, as they were settled last.
    pub fn order(&self) -> &[CertRef]
        ensures { result.now ≡ self.now.ordered.order }
    {
        self.settled.flat.order()
    }

    /// How many batches the order has before the first that is missing, as it was settled last.
    pub fn batches(&self) -> usize
        ensures { result ≡ length self.now.ordered.payloads.list }
    {
        self.settled.list.found().len()
    }

    /// The payload of a batch in the order.
    pub fn payload(&self, place: usize) -> &[u8]
        requires open { self.now.failed ≡ false }
        requires inside { place < length self.now.ordered.payloads.list }
        ensures { slice_get self.now.ordered.payloads.list place ≡ Some result.now }
    {
        self.table.batches.payload(self.settled.list.found()[place])
    }

    /// The digest of the first batch that is missing in the order, as it was settled last.
    pub fn missing(&self) -> Option<&Digest32>
        ensures { option_copied result ≡ self.now.ordered.payloads.missing }
    {
        self.settled.list.missing()
    }

    /// The places of the certificates that wait, of all frames so far, by round and author.
    /// O(n log n) in the certificates that are held.
    ///
    /// An `Err` comes only where memory runs out.
    pub fn waiting(&self) -> Result<Vec<CertRef>, AllocError>
        ensures { IfOk result (λ places. (frames : List Frame) → HasTaken frames self.now
            → self.now.failed ≡ false → HasNoStop self.now.committee frames
            → AreWaiting self.now.committee frames places.items) }
    {
        let places = self.table.rounds.waiting()?;
        Ok(places)
    }

    /// The good certificates of all frames so far by round and author; while a stop stands, some of them.
    pub fn rounds(&self) -> &Rounds
        ensures table { (frames : List Frame) → HasTaken frames self.now
            → self.now.failed ≡ false → HasNoStop self.now.committee frames
            → AreRoundsOf self.now.committee frames result.now }
        ensures committed { (frames : List Frame) → HasTaken frames self.now
            → self.now.failed ≡ false → HasNoStop self.now.committee frames
            → IsOrderOf self.now.committee frames self.now.ordered
            → IsCommitted result.now.sizes result.now.held self.now.ordered.anchors }
    {
        &self.table.rounds
    }
}
