//! Batches, executed by one worker: one transaction after another, in their order.
//!
//! In version One four threads work on slices at once, and stay until all are executed: three read slices and look up their
//! accounts, each a third of them, and the calling thread executes them. In version Two slots for the accounts of a slice
//! may be made in its turn, so that nothing is looked up before, and its slices are larger: only the one after it is read
//! and decoded meanwhile.

ghost use Rattle.std.specs.Prelude.{◌≡◌, ◌+◌, ◌^◌, ◌<◌, ◌≤◌, Ok, map, length, IfOk};
ghost use Rattle.std.specs.Thread.{IsSync};
ghost use Rattle.rtrb.specs.Ring.{sent};
ghost use Rattle.bk_base.specs.declared.version.Version.TheVariants.{One};
ghost use Rattle.bk_rules.specs.Fold.{HasRoom};
ghost use Rattle.bk_rules.specs.Ops.{AreOps};
ghost use Rattle.bk_tx.specs.Batches.{transactions_of};
ghost use Rattle.bk_ledger.specs.Executing.{HasExecuted, HasRun};
ghost use Rattle.bk_ledger.specs.private.Handing.{AreLooked, AreTurns, IsLooked};
ghost use Rattle.bk_ledger.specs.private.Slices.{IsReadOf};

use crate::batches::Batches;
use crate::ledger::Ledger;
use crate::looking::{Looked, Turns, after, look_all, look_next, looks};
use crate::reading::read_next;
use crate::slice::{are_few, end_of, least_of};
use bk_base::Version;
use bk_pool::Gate;
use bk_rules::{Ids, Op};
use crossbeam_utils::sync::Parker;
use std::alloc::{AllocError, Global};
use std::sync::Wait;
use std::thread::{Threads, join, scope, scope_env};

// A slice that is looked up while others are executed takes whole batches until it has this many transactions. It is shorter
// than one that is planned, as ten of them are in memory at once.
const TURN: usize = 2_048;

// What both of two calls gave.
fn both(
    ran: Result<Ledger, AllocError>,
    read: Result<Batches, AllocError>,
) -> Result<(Ledger, Batches), AllocError>
    ensures { IfOk result (λ r. (ran ≡ Ok r.0) × (read ≡ Ok r.1)) }
{
    let ledger = ran?;
    let read = read?;
    Ok((ledger, read))
}

// Enters and leaves each place of a slice that was executed, in their order.
fn pass_all<G: Gate>(gate: &G, places: usize)
    requires { places < 2 ^ 31 }
{
    for place in 0..places {
        gate.inside(place as u32);
        gate.left(place as u32);
    }
}

// A slice that begins at an index: the one that was taken, or else one that is looked up here. It never comes to that, as
// all threads cut the batches alike; but no contract says so.
fn begin_at<'a, 'b>(
    alloc: Global,
    payloads: &'a [&'a [u8]],
    ids: &'b Ids,
    taken: Looked<'a, 'b>,
    from: usize,
    least: usize,
) -> Result<Looked<'a, 'b>, AllocError>
    requires taken { IsLooked (map (λ p. p.now) payloads.now) ids.now taken }
    requires within { from ≤ length payloads.now }
    requires least { least < 2 ^ 30 }
    ensures looked { IfOk result (IsLooked (map (λ p. p.now) payloads.now) ids.now) }
    ensures place { IfOk result (λ l. l.from ≡ from) }
{
    if taken.from == from {
        return Ok(taken);
    }
    look_next(alloc, payloads, ids, from, least)
}

impl Ledger {
    /// Executes further batches in the calling thread, in slices of at least so many transactions.
    pub(crate) fn execute_in_turn<R: Threads + Wait + Sync, G: Gate + Sync>(
        self,
        rt: &R,
        alloc: Global,
        payloads: &[&[u8]],
        fewest: usize,
        gate: &G,
    ) -> Result<Ledger, AllocError>
        requires room { HasRoom self.state.version
            (length (transactions_of (map (λ p. p.now) payloads.now))) self.state.rows }
        requires fewest { fewest < 2 ^ 30 }
        ensures { IfOk result (HasExecuted (map (λ p. p.now) payloads.now) self) }
    {
        match self.state.version() {
            Version::One if are_few(payloads, fewest) => {
                let ids = self.state.ids().share(alloc)?;
                self.execute_alone(alloc, payloads, &ids, fewest, gate)
            }
            Version::One => self.execute_handed(rt, alloc, payloads, fewest.min(TURN), gate),
            Version::Two => self.execute_read(rt, alloc, payloads, &None, fewest, gate),
        }
    }

    // The same, while three other threads look up slices in turn. Where one of them cannot be started it goes on without all.
    fn execute_handed<'a, R: Threads + Wait + Sync, G: Gate + Sync>(
        self,
        rt: &R,
        alloc: Global,
        payloads: &'a [&'a [u8]],
        fewest: usize,
        gate: &G,
    ) -> Result<Ledger, AllocError>
        requires version { self.state.version ≡ One }
        requires room { HasRoom self.state.version
            (length (transactions_of (map (λ p. p.now) payloads.now))) self.state.rows }
        requires fewest { fewest < 2 ^ 30 }
        ensures { IfOk result (HasExecuted (map (λ p. p.now) payloads.now) self) }
    {
        let shared = self.state.ids().share(alloc)?;
        let ids = &shared;
        // Where the first slice of the second thread begins, and that of the third.
        let second = end_of(payloads, 0, fewest);
        let third = end_of(payloads, second, fewest);
        let one = Parker::new(alloc)?;
        let two = Parker::new(alloc)?;
        let three = Parker::new(alloc)?;
        let running = Parker::new(alloc)?;
        let (give_one, take_one) = looks(alloc, payloads, ids, &one, &running)?;
        let (give_two, take_two) = looks(alloc, payloads, ids, &two, &running)?;
        let (give_three, take_three) = looks(alloc, payloads, ids, &three, &running)?;
        let turns = Turns {
            first: take_one,
            second: take_two,
            third: take_three,
        };
        scope(
            scope_env(),
            rt,
            |threads| -> Result<Ledger, AllocError>
                requires { IsSync R.row × IsSync G.row
                    × AreLooked (map (λ p. p.now) payloads.now) ids.now (sent give_one.giver)
                    × AreLooked (map (λ p. p.now) payloads.now) ids.now (sent give_two.giver)
                    × AreLooked (map (λ p. p.now) payloads.now) ids.now (sent give_three.giver)
                    × AreTurns (map (λ p. p.now) payloads.now) ids.now turns
                    × (second ≤ length payloads.now) × (third ≤ length payloads.now)
                    × (length payloads.now < 2 ^ 64) × (fewest < 2 ^ 30)
                    × (ids.now ≡ self.state.slots) × (self.state.version ≡ One)
                    × HasRoom self.state.version
                    (length (transactions_of (map (λ p. p.now) payloads.now))) self.state.rows }
                ensures { IfOk result (HasExecuted (map (λ p. p.now) payloads.entry.now) self) }
            {
                let looker = threads.spawn(
                    || -> Result<(), AllocError>
                        requires { IsSync R.row
                            × AreLooked (map (λ p. p.now) payloads.now) ids.now (sent give_one.giver)
                            × (length payloads.now < 2 ^ 64) × (fewest < 2 ^ 30) }
                    { look_all(rt, alloc, payloads, ids, fewest, 0, give_one, one) },
                );
                let another = threads.spawn(
                    || -> Result<(), AllocError>
                        requires { IsSync R.row
                            × AreLooked (map (λ p. p.now) payloads.now) ids.now (sent give_two.giver)
                            × (second ≤ length payloads.now)
                            × (length payloads.now < 2 ^ 64) × (fewest < 2 ^ 30) }
                    { look_all(rt, alloc, payloads, ids, fewest, second, give_two, two) },
                );
                let last = threads.spawn(
                    || -> Result<(), AllocError>
                        requires { IsSync R.row
                            × AreLooked (map (λ p. p.now) payloads.now) ids.now (sent give_three.giver)
                            × (third ≤ length payloads.now)
                            × (length payloads.now < 2 ^ 64) × (fewest < 2 ^ 30) }
                    { look_all(rt, alloc, payloads, ids, fewest, third, give_three, three) },
                );
                if looker.is_err() || another.is_err() || last.is_err() {
                    return self.execute_alone(alloc, payloads, ids, fewest, gate);
                }
                self.execute_looked(rt, alloc, payloads, ids, turns, running, fewest, gate)
            },
        )
    }

    // The same, while no other thread does anything.
    fn execute_alone<'a, 'b, G: Gate>(
        self,
        alloc: Global,
        payloads: &'a [&'a [u8]],
        ids: &'b Ids,
        fewest: usize,
        gate: &G,
    ) -> Result<Ledger, AllocError>
        requires version { self.state.version ≡ One }
        requires ids { ids.now ≡ self.state.slots }
        requires room { HasRoom self.state.version
            (length (transactions_of (map (λ p. p.now) payloads.now))) self.state.rows }
        requires fewest { fewest < 2 ^ 30 }
        ensures { IfOk result (HasExecuted (map (λ p. p.now) payloads.now) self) }
    {
        let mut ledger = self;
        let mut from = 0usize;
        while from < payloads.len() {
            let looked = look_next(alloc, payloads, ids, from, fewest)?;
            let later = from + looked.read.counts.len();
            ledger = ledger.run_looked(alloc, looked.read, &looked.ops, gate)?;
            from = later;
        }
        Ok(ledger)
    }

    // Executes the slices that are looked up, in their order.
    fn execute_looked<'a, 'b, R: Wait, G: Gate>(
        self,
        rt: &R,
        alloc: Global,
        payloads: &'a [&'a [u8]],
        ids: &'b Ids,
        turns: Turns<'a, 'b>,
        own: Parker,
        fewest: usize,
        gate: &G,
    ) -> Result<Ledger, AllocError>
        requires version { self.state.version ≡ One }
        requires ids { ids.now ≡ self.state.slots }
        requires turns { AreTurns (map (λ p. p.now) payloads.now) ids.now turns }
        requires room { HasRoom self.state.version
            (length (transactions_of (map (λ p. p.now) payloads.now))) self.state.rows }
        requires fewest { fewest < 2 ^ 30 }
        ensures { IfOk result (HasExecuted (map (λ p. p.now) payloads.now) self) }
    {
        let mut turns = turns;
        let mut turn = 0usize;
        let mut ledger = self;
        let mut from = 0usize;
        while from < payloads.len() {
            // None comes where memory ran out in that thread.
            let Some(taken) = turns.take_next(rt, turn, &own) else {
                return Err(AllocError);
            };
            let looked = begin_at(alloc, payloads, ids, taken, from, fewest)?;
            let later = from + looked.read.counts.len();
            ledger = ledger.run_looked(alloc, looked.read, &looked.ops, gate)?;
            from = later;
            turn = after(turn);
        }
        Ok(ledger)
    }

    // Executes a slice by the ops of its transactions, in version One.
    fn run_looked<G: Gate>(
        self,
        alloc: Global,
        read: Batches,
        ops: &[Op],
        gate: &G,
    ) -> Result<Ledger, AllocError>
        requires version { self.state.version ≡ One }
        requires ops { AreOps self.state.slots read.txs.items ops.now }
        requires room { HasRoom self.state.version (length read.txs.items) self.state.rows }
        requires few { length read.txs.items < 2 ^ 31 }
        ensures ran { IfOk result (HasRun read.counts.items read.txs.items self) }
        ensures slots { IfOk result (λ l. l.state.slots ≡ self.state.slots) }
    {
        let mut ledger = self;
        ledger.run_by_ops(alloc, &read, ops)?;
        pass_all(gate, read.txs.len());
        Ok(ledger)
    }

    /// Executes further batches, while the slice after each is read, and looked up where there are ids to look it up among.
    pub(crate) fn execute_read<R: Threads + Sync, G: Gate + Sync>(
        self,
        rt: &R,
        alloc: Global,
        payloads: &[&[u8]],
        ids: &Option<Ids>,
        fewest: usize,
        gate: &G,
    ) -> Result<Ledger, AllocError>
        requires room { HasRoom self.state.version
            (length (transactions_of (map (λ p. p.now) payloads.now))) self.state.rows }
        requires fewest { fewest < 2 ^ 30 }
        ensures { IfOk result (HasExecuted (map (λ p. p.now) payloads.now) self) }
    {
        let mut ledger = self;
        let mut from = 0usize;
        let least = ledger.worth_a_turn(fewest);
        let mut next = read_next(alloc, payloads, ids.as_ref(), 0, least)?;
        while from < payloads.len() {
            let later = from + next.counts.len();
            let (after, read) = ledger.run_turn(
                rt, alloc, payloads, ids, next, later, fewest, gate,
            )?;
            ledger = after;
            next = read;
            from = later;
        }
        Ok(ledger)
    }

    // How many transactions a slice has at least. In version Two it may declare accounts without a slot, and to make slots
    // costs what all slots cost: so many transactions share that.
    fn worth_a_turn(&self, fewest: usize) -> usize
        requires { fewest < 2 ^ 30 }
        ensures { result < 2 ^ 30 }
    {
        match self.state.version() {
            Version::One => fewest,
            Version::Two => least_of(self.state.slots().len(), fewest),
        }
    }

    // Executes the next slice, while the one after it, from an index on, is read.
    fn run_turn<R: Threads + Sync, G: Gate + Sync>(
        self,
        rt: &R,
        alloc: Global,
        payloads: &[&[u8]],
        ids: &Option<Ids>,
        next: Batches,
        from: usize,
        fewest: usize,
        gate: &G,
    ) -> Result<(Ledger, Batches), AllocError>
        requires room { HasRoom self.state.version (length next.txs.items) self.state.rows }
        requires few { length next.txs.items < 2 ^ 31 }
        requires within { from ≤ length payloads.now }
        requires fewest { fewest < 2 ^ 30 }
        ensures ran { IfOk result
            (λ r. HasRun next.counts.items next.txs.items self r.0) }
        ensures read { IfOk result (λ r. IsReadOf (map (λ p. p.now) payloads.now) from
            r.1.counts.items r.1.txs.items) }
    {
        if from == payloads.len() {
            let ledger = self.run_read(alloc, next, gate)?;
            return Ok((ledger, Batches::new(alloc)));
        }
        let least = self.worth_a_turn(fewest);
        let (read, ran) = join(
            rt,
            || -> Result<Batches, AllocError>
                requires { (least < 2 ^ 30) × (from ≤ length payloads.now) }
                ensures { IfOk result (λ b. IsReadOf (map (λ p. p.now) payloads.entry.now) from
                    b.counts.items b.txs.items) }
            { read_next(alloc, payloads, ids.as_ref(), from, least) },
            || -> Result<Ledger, AllocError>
                requires { IsSync G.row
                    × HasRoom self.state.version (length next.txs.items) self.state.rows
                    × (length next.txs.items < 2 ^ 31) }
                ensures { IfOk result (HasRun next.counts.items next.txs.items self) }
            { self.run_read(alloc, next, gate) },
        );
        both(ran, read)
    }

    // Executes a slice that was read.
    fn run_read<G: Gate>(self, alloc: Global, read: Batches, gate: &G) -> Result<Ledger, AllocError>
        requires room { HasRoom self.state.version (length read.txs.items) self.state.rows }
        requires few { length read.txs.items < 2 ^ 31 }
        ensures { IfOk result (HasRun read.counts.items read.txs.items self) }
    {
        let mut ledger = self;
        let mut read = read;
        let places = read.txs.len();
        ledger.run(alloc, &mut read)?;
        pass_all(gate, places);
        Ok(ledger)
    }
}
