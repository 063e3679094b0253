//! The votes for anchors, added up as certificates become admitted.

ghost use Rattle.std.specs.Prelude.{◌≡◌, ℕ, ◌+◌, ◌-◌, ◌*◌, ◌≤◌, ◌%◌, [], Contains, OnOk, length};
ghost use Rattle.bk_committee.specs.Sizes.{faulty, total};
ghost use Rattle.bk_cert.specs.Place.{IsListed};
ghost use Rattle.bk_cert.specs.declared.place.CertRef.{CertRef};
ghost use Rattle.bk_rounds.specs.Admission.{IsPresent};
ghost use Rattle.bk_rounds.specs.private.Tally.{kept_at, IsTally, IsCast, IsNewest, IsRaised, CanRaise, AreKept, AreCounted};

use crate::table::Table;
use bk_cert::CertRef;
use std::alloc::{AllocError, Global};

/// What the voters for the anchor of each odd round weigh together, the first round first.
///
/// An entry is made for each two certificates that are added, whatever their rounds. With an
/// admitted certificate one is admitted in each round before, so its round is no greater than the
/// number of certificates: counting takes no memory.
#[derive(Drop)]
pub(crate) struct Votes {
    pub weights: Vec<u64>,
    // The greatest round whose votes weigh more than may be faulty; 0 where there is none.
    pub newest: u32,
}

impl Votes {
    /// No votes.
    pub fn new(alloc: Global) -> Votes
        ensures none { result.weights.items ≡ [] }
        ensures newest { result.newest ≡ 0 }
    {
        Votes {
            weights: Vec::new(alloc),
            newest: 0,
        }
    }

    /// The weight of a round's votes.
    pub fn at(&self, round: u32) -> u64
        ensures { result ≡ kept_at self.now round }
    {
        if round % 2 == 1 {
            match self.weights.get((round / 2) as usize).copied() {
                Some(weight) => weight,
                None => 0,
            }
        } else {
            0
        }
    }

    /// Makes the entry for one certificate more than this many.
    pub fn make_room(&mut self, held: usize) -> Result<(), AllocError>
        requires { held ≤ 2 * length self.old.weights.items + 1 }
        ensures same { (r : ℕ) → kept_at self.new r ≡ kept_at self.old r }
        ensures newest { self.new.newest ≡ self.old.newest }
        ensures stay { length self.old.weights.items ≤ length self.new.weights.items }
        ensures room { OnOk result (held + 1 ≤ 2 * length self.new.weights.items + 1) }
    {
        if self.weights.len() <= held / 2 {
            self.weights.push(0)?;
        }
        Ok(())
    }

    // Adds this weight to the votes of a round, which has an entry, and answers their weight.
    fn raise(&mut self, round: u32, weight: u64) -> u64
        requires { CanRaise self.old round weight }
        ensures raised { IsRaised round weight self.old self.new }
        ensures is { result ≡ kept_at self.new round }
        ensures newest { self.new.newest ≡ self.old.newest }
    {
        let index = (round / 2) as usize;
        let sum = self.weights[index] + weight;
        self.weights[index] = sum;
        sum
    }

    // Adds this weight to the votes of a round, which may make it the newest round that is voted.
    fn cast(&mut self, round: u32, weight: u64, faulty: u64)
        requires can { CanRaise self.old round weight }
        requires newest { IsNewest faulty self.old }
        ensures raised { IsRaised round weight self.old self.new }
        ensures newest { IsNewest faulty self.new }
    {
        if self.raise(round, weight) > faulty {
            self.newest = self.newest.max(round);
        }
    }
}

/// Counts the votes of these certificates, which have become admitted.
pub(crate) fn count(table: &Table, votes: &mut Votes, places: &[CertRef])
    requires listed { IsListed places.now }
    requires present { (b : CertRef) → Contains places.now b
        → IsPresent table.now.sizes table.now.held b }
    requires tally { IsTally table.now.sizes table.now.held places.now votes.old }
    requires kept { AreKept table.now.sizes table.now.held votes.old }
    ensures { AreCounted table.now.sizes table.now.held votes.new }
{
    for place in places {
        count_one(table, votes, *place);
    }
}

// Counts the vote of the certificate at a place, if it is one.
fn count_one(table: &Table, votes: &mut Votes, place: CertRef)
    requires present { IsPresent table.now.sizes table.now.held place }
    requires light { kept_at votes.old (place.round - 1) ≤ total table.now.sizes }
    requires kept { AreKept table.now.sizes table.now.held votes.old }
    ensures cast { IsCast table.now.sizes table.now.held place votes.old votes.new }
    ensures kept { AreKept table.now.sizes table.now.held votes.new }
{
    if place.round % 2 == 1 {
        return;
    }
    // The number of members also says that it is 1 to 128.
    let _ = table.members();
    let round = place.round - 1;
    if !table.parents_of(place).has(table.leader(round)) {
        return;
    }
    votes.cast(round, table.weight(place.author), table.faulty());
}
