//! The machine: what an execution holds between two events.

ghost use Rattle.std.specs.Prelude.{◌≡◌, ℕ, length, IfOk, IfErr, OnOk, OnErr};
ghost use Rattle.bk_conflicts.specs.SceneOf.{CanRunOn, scene_of, in_words};
ghost use Rattle.bk_steps.specs.Course.{Course, opened};
ghost use Rattle.bk_steps.specs.Moves.{AllAreDone};
ghost use Rattle.bk_steps.specs.Schedule.{IsFoldOf, IsUndone};
ghost use Rattle.bk_steps.specs.Machine.{Shows, scene_in};
ghost use Rattle.bk_steps.specs.Steps.{Steps, IsRefused, word_of, learned};
ghost use Rattle.bk_steps.specs.declared.event.Event.TheVariants.{Claim, Read, Write, Finish};

use crate::event::Event;
use crate::outcome::{Outcome, ScheduleFault, receipts_of};
use crate::seat::{
    Seat, at_rest, has_read_all, has_written, has_written_all, index_in, is_idle, marked, noted,
    place_held, seated, seats_of, values_of, writable_in,
};
use crate::settling::settle_words;
use crate::stage::{Stage, is_ready, stages_of};
use crate::waits::{release, waits_of};
use bk_base::Refused;
use bk_conflicts::Plan;
use bk_rules::{Account, State};
use std::alloc::{AllocError, Global};
use std::marker::Model;

/// An execution between two events: any number of workers, one event at a time.
#[derive(Drop)]
pub struct Machine {
    plan: Plan,
    opening: State,
    words: Vec<u64>,
    stages: Vec<Stage>,
    seats: Vec<Seat>,
    // How many places each place waits for directly that are not done.
    waits: Vec<u32>,
}

impl Model for Machine {
    ghost use Rattle.bk_steps.specs.Machine.{MachineValue};
    ghost use Rattle.bk_steps.specs.private.Machine.{machine_value, IsInside};

    ghost Value = { MachineValue };

    ghost view = { λ m. machine_value m.plan m.opening m.words.items m.stages.items m.seats.items };

    ghost invariant = { λ m. IsInside m.plan m.opening
        m.words.items m.stages.items m.seats.items m.waits.items };
}

impl Machine {
    /// The execution of a plan on these accounts by this many workers, before the first event.
    pub fn new(alloc: Global, plan: Plan, state: State, workers: u32) -> Result<Machine, AllocError>
        requires { CanRunOn plan state }
        ensures plan { IfOk result (λ m. m.plan ≡ plan) }
        ensures state { IfOk result (λ m. m.opening ≡ state) }
        ensures workers { IfOk result (λ m. length m.seats ≡ workers) }
        ensures opening { IfOk result (λ m. Shows m (opened (scene_of plan state))) }
    {
        let words = opening_words(alloc, state.numbers())?;
        let stages = stages_of(alloc, Stage::Waiting, plan.len())?;
        let seats = seats_of(alloc, at_rest(), workers as usize)?;
        let waits = waits_of(alloc, &plan)?;
        Ok(Machine {
            plan,
            opening: state,
            words,
            stages,
            seats,
            waits,
        })
    }

    /// The worker takes the place. Where it may not, nothing changes.
    pub fn claim(&mut self, worker: u64, place: u64) -> Result<(), Refused>
        ensures allowed { OnOk result (Steps self.old (Claim worker place) self.new) }
        ensures refused { IfErr result (λ why. IsRefused self.old (Claim worker place) why) }
        ensures unchanged { OnErr result (self.new ≡ self.old) }
    {
        if !is_idle(&self.seats, worker) {
            return Err(Refused::NotIdle);
        }
        if !is_ready(&self.stages, &self.waits, place) {
            return Err(Refused::NotReady);
        }
        self.stages[place as usize] = Stage::Held(worker);
        self.seats[worker as usize] = seated(place);
        Ok(())
    }

    /// The worker reads a word of its place: its value. Where it may not, nothing changes.
    pub fn read(&mut self, worker: u64, word: u64) -> Result<u64, Refused>
        ensures allowed { OnOk result (Steps self.old (Read worker word) self.new) }
        ensures value { IfOk result (λ v. v ≡ word_of self.new word) }
        ensures refused { IfErr result (λ why. IsRefused self.old (Read worker word) why) }
        ensures unchanged { OnErr result (self.new ≡ self.old) }
    {
        let Some(place) = place_held(&self.seats, worker) else {
            return Err(Refused::NotHolder);
        };
        let words = self.plan.words_of(place as u32);
        let Some(k) = index_in(words, word) else {
            return Err(Refused::NotDeclared);
        };
        let seat = self.seats[worker as usize];
        if has_written(&seat.written, words.len()) {
            return Err(Refused::OutOfTurn);
        }
        let value = self.words[word as usize];
        self.seats[worker as usize] = noted(seat, k, value);
        Ok(value)
    }

    /// The worker writes a word of its place: what the rule leaves there, by what it has read.
    /// Where it may not, nothing changes.
    pub fn write(&mut self, worker: u64, word: u64) -> Result<u64, Refused>
        ensures allowed { OnOk result (Steps self.old (Write worker word) self.new) }
        ensures value { IfOk result (λ v. v ≡ word_of self.new word) }
        ensures refused { IfErr result (λ why. IsRefused self.old (Write worker word) why) }
        ensures unchanged { OnErr result (self.new ≡ self.old) }
    {
        let Some(place) = place_held(&self.seats, worker) else {
            return Err(Refused::NotHolder);
        };
        let words = self.plan.words_of(place as u32);
        let Some(k) = writable_in(words, word) else {
            return Err(Refused::NotDeclared);
        };
        let seat = self.seats[worker as usize];
        if !has_read_all(&seat.read, words.len()) {
            return Err(Refused::OutOfTurn);
        }
        if seat.written[k] {
            return Err(Refused::OutOfTurn);
        }
        let mut values = values_of(&seat.read);
        settle_words(&self.plan, place as u32, &mut values);
        let value = values[k];
        self.words[word as usize] = value;
        self.seats[worker as usize] = marked(seat, k);
        Ok(value)
    }

    /// The worker leaves its place, which is then done, with the receipt that the rule gives for
    /// what it has read. Where it may not, nothing changes.
    pub fn finish(&mut self, worker: u64) -> Result<(), Refused>
        ensures allowed { OnOk result (Steps self.old (Finish worker) self.new) }
        ensures refused { IfErr result (λ why. IsRefused self.old (Finish worker) why) }
        ensures unchanged { OnErr result (self.new ≡ self.old) }
    {
        let Some(place) = place_held(&self.seats, worker) else {
            return Err(Refused::NotHolder);
        };
        let words = self.plan.words_of(place as u32);
        let seat = self.seats[worker as usize];
        if !has_read_all(&seat.read, words.len()) {
            return Err(Refused::OutOfTurn);
        }
        if !has_written_all(words, &seat.written) {
            return Err(Refused::OutOfTurn);
        }
        let mut values = values_of(&seat.read);
        let receipt = settle_words(&self.plan, place as u32, &mut values);
        release(&mut self.waits, self.plan.after(place as u32));
        self.stages[place as usize] = Stage::Done(receipt);
        self.seats[worker as usize] = at_rest();
        Ok(())
    }

    /// Does an event, and returns the value that a read or a write is about. An event that is
    /// refused changes nothing. It takes no memory.
    pub fn step(&mut self, event: Event) -> Result<Option<u64>, Refused>
        ensures allowed { OnOk result (Steps self.old event self.new) }
        ensures value { IfOk result (λ v. v ≡ learned self.new event) }
        ensures refused { IfErr result (λ why. IsRefused self.old event why) }
        ensures unchanged { OnErr result (self.new ≡ self.old) }
    {
        match event {
            Event::Claim { worker, place } => {
                self.claim(worker, place)?;
                Ok(None)
            }
            Event::Read { worker, word } => {
                let value = self.read(worker, word)?;
                Ok(Some(value))
            }
            Event::Write { worker, word } => {
                let value = self.write(worker, word)?;
                Ok(Some(value))
            }
            Event::Finish { worker } => {
                self.finish(worker)?;
                Ok(None)
            }
        }
    }

    /// The accounts and the receipts, where every place is done; else the least that is not.
    pub fn outcome(self, alloc: Global) -> Result<Outcome, ScheduleFault>
        ensures done { IfOk result (λ o. (d : Course) → Shows self d
            → AllAreDone (scene_in self) d) }
        ensures fold { IfOk result (λ o. IsFoldOf self.plan self.opening o) }
        ensures left { IfErr result (λ fault. IsUndone self fault) }
    {
        let receipts = receipts_of(alloc, &self.stages)?;
        let mut state = self.opening;
        state.set_words(&self.words);
        Ok(Outcome { state, receipts })
    }
}

// The two words of each account.
fn opening_words(alloc: Global, numbers: &[Account]) -> Result<Vec<u64>, AllocError>
    ensures { IfOk result (λ words. words.items ≡ in_words numbers.now) }
{
    let mut words = Vec::with_capacity(alloc, 2 * numbers.len())?;
    for account in numbers {
        words.push(account.balance)?;
        words.push(account.seq)?;
    }
    Ok(words)
}
