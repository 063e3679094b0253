//! The certificates that are held, and which of them are admitted.

ghost use Rattle.std.specs.Prelude.{◌≡◌, ◌++◌, ◌∷◌, OnOk, OnErr, ℕ, ◌-◌, ◌<◌, ◌≤◌, ◌^◌, ◌↔◌, ◌⊎◌, [], Contains, length, sum, IfSome, IfNone, IfOk, IsTrue};
ghost use Rattle.bk_committee.specs.Sizes.{members, total, faulty, weight, leader};
ghost use Rattle.bk_cert.specs.Node.{Node};
ghost use Rattle.bk_cert.specs.Place.{place_of, Lists};
ghost use Rattle.bk_cert.specs.Clear.{IsClear};
ghost use Rattle.bk_cert.specs.declared.place.CertRef.{CertRef};
ghost use Rattle.bk_index.specs.Places.{number_of};
ghost use Rattle.bk_rounds.specs.Admission.{StandsAt, IsPresent, AreFit, WaitsAt, last_round};
ghost use Rattle.bk_rounds.specs.Links.{Links};
ghost use Rattle.bk_rounds.specs.Members.{Has, IsWeightOf};
ghost use Rattle.bk_rounds.specs.Rounds.{rounds_with, sizes_with, BecomesPresent, IsAddable};
ghost use Rattle.bk_rounds.specs.private.Names.{AreNames};
ghost use Rattle.bk_rounds.specs.private.Tied.{IsPlaced, IsNumberAt, WaitsBelow};

use crate::admitting::{admit, list, tell};
use crate::buffers::{Buffers, hand_over};
use crate::members::Members;
use crate::names::Names;
use crate::preparing::prepare;
use crate::rows::Rows;
use crate::slots::Slot;
use crate::weights::Weights;
use bk_cert::{CertRef, SharedCert};
use bk_digest::Digest32;
use bk_index::{HashKey, PlaceIndex};
use std::alloc::{AllocError, Global};
use std::marker::Model;

/// The held certificates of a committee, and which of them are admitted. Contracts see it as they
/// see `Rounds`, whose calls these are.
#[derive(Drop)]
pub(crate) struct Table {
    alloc: Global,
    weights: Weights,
    certs: Vec<SharedCert>,
    names: Names,
    places: PlaceIndex,
    rows: Rows,
    buffers: Buffers,
    // The greatest round of an admitted one.
    top: u32,
}

impl Model for Table {
    ghost use Rattle.bk_index.specs.Places.{number_of};
    ghost use Rattle.bk_rounds.specs.Rounds.{RoundsValue, rounds_with};
    ghost use Rattle.bk_rounds.specs.private.Tied.{IsWhole};

    ghost Value = { RoundsValue };

    ghost view = { λ s. rounds_with s.weights s.certs.items };

    ghost invariant = { λ s. IsWhole s.weights s.certs.items s.names (number_of s.places) s.top };
}

impl Table {
    /// A table with no certificate, of a committee with these weights, each above 0.
    pub fn with_weights(alloc: Global, weights: &[u32], key: HashKey) -> Result<Table, AllocError>
        requires some { 1 ≤ length weights.now }
        requires few { length weights.now ≤ 128 }
        requires heavy { 1 ≤ sum weights.now }
        ensures { IfOk result (λ rounds. rounds ≡ rounds_with (sizes_with weights.now) []) }
    {
        let weights = Weights::new(alloc, weights)?;
        let members = weights.members();
        Ok(Table {
            alloc,
            weights,
            certs: Vec::new(alloc),
            names: Names::new(alloc, key),
            places: PlaceIndex::new(alloc, members),
            rows: Rows::new(alloc, members),
            buffers: Buffers::new(alloc),
            top: 0,
        })
    }

    /// Adds a certificate, and answers the places of all that this makes admitted, by round and
    /// author.
    ///
    /// An `Err` comes only where memory runs out, and leaves the table as it was. It may leave
    /// empty rows, which change no result: what a row says is compared before it is used.
    pub fn add(&mut self, cert: SharedCert) -> Result<Vec<CertRef>, AllocError>
        requires { IsAddable self.old cert }
        ensures ok { OnOk result (self.new ≡ rounds_with self.old.sizes
            (self.old.held ++ cert ∷ [])) }
        ensures err { OnErr result (self.new ≡ self.old) }
        ensures answer { IfOk result (λ out. Lists out.items (BecomesPresent self.old self.new)) }
    {
        let alloc = self.alloc;
        let ready = prepare(
            alloc,
            &mut self.names,
            &mut self.certs,
            &mut self.buffers,
            &mut self.rows,
            &cert,
        )?;
        let place = CertRef {
            round: cert.header().round(),
            author: cert.header().author(),
        };
        self.places.first_of(place, ready.number)?;
        let slot = Slot {
            id: *cert.id(),
            round: place.round,
            author: place.author,
            cert: self.certs.len(),
            parents: ready.parents,
        };
        self.certs.push_reserved(cert);
        admit(
            alloc,
            &self.weights,
            &mut self.names.slots,
            &mut self.names.marks,
            &mut self.names.pending,
            ready.number,
            slot,
            &mut self.buffers.out,
        );
        self.names.unmarked -= self.buffers.out.len();
        self.top = tell(
            self.names.slots.as_slice(),
            &mut self.names.sets,
            &self.buffers.out,
            &mut self.buffers.places,
            self.top,
        );
        self.rows.enter(self.names.slots.as_slice(), ready.number);
        Ok(hand_over(alloc, &mut self.buffers.places))
    }

    /// The admitted certificate of this place.
    pub fn at(&self, place: CertRef) -> Option<&SharedCert>
        ensures found { IfSome result (λ c. StandsAt self.now.sizes self.now.held place c.now) }
        ensures none { IfNone result (IsPresent self.now.sizes self.now.held place → ⊥) }
    {
        match admitted_number(&self.names, &self.places, place) {
            Some(number) => Some(&self.certs[self.names.slots.as_slice()[number].cert]),
            None => None,
        }
    }

    /// The parents of the admitted certificate of this place, as members of the round before;
    /// nobody where there is none.
    pub fn parents_of(&self, place: CertRef) -> Members
        ensures { (x : ℕ) → Has result x
            ↔ Links self.now.sizes self.now.held place
            (record { round = place.round - 1; author = x }) }
    {
        match admitted_number(&self.names, &self.places, place) {
            Some(number) => self.names.sets[number],
            None => Members::none(),
        }
    }

    /// Whether a certificate of this place is held.
    pub fn has(&self, place: CertRef) -> bool
        ensures { IsTrue result ↔ ((c : Node) × Contains self.now.held c × (place_of c ≡ place)) }
    {
        self.places.get(place).is_some()
    }

    /// Whether a certificate with this id is held.
    pub fn has_id(&self, id: &Digest32) -> bool
        ensures { IsTrue result ↔ ((c : Node) × Contains self.now.held c × (c.id ≡ id.now)) }
    {
        match self.names.slots.get(id) {
            Some(number) => self.names.slots.as_slice()[number].round != 0,
            None => false,
        }
    }

    /// The places of the certificates that are held and not admitted, by round and author.
    pub fn waiting(&self) -> Result<Vec<CertRef>, AllocError>
        ensures { IfOk result
            (λ places. Lists places.items (WaitsAt self.now.sizes self.now.held)) }
    {
        let mut places = waiting_places(self.alloc, &self.names)?;
        list(&mut places);
        Ok(places)
    }

    /// What is held is good, no two of it share an id or a place, and of each place it is settled
    /// whether an admitted certificate is there.
    pub fn sound(&self)
        ensures good { AreFit self.now.sizes self.now.held }
        ensures clear { IsClear self.now.held }
        ensures decided { (a : CertRef) → IsPresent self.now.sizes self.now.held a
            ⊎ (IsPresent self.now.sizes self.now.held a → ⊥) }
    {
        let _open = self.top;
    }

    /// The greatest round of an admitted certificate; 0 where none is admitted.
    pub fn top(&self) -> u32
        ensures highest { (a : CertRef) → IsPresent self.now.sizes self.now.held a
            → a.round ≤ result }
        ensures to_last { result ≤ last_round }
        ensures reached { 0 < result → (a : CertRef) × IsPresent self.now.sizes self.now.held a
            × (a.round ≡ result) }
    {
        self.top
    }

    /// How many certificates are held.
    pub fn held(&self) -> usize
        ensures { result ≡ length self.now.held }
    {
        self.certs.len()
    }

    /// How many members there are.
    pub fn members(&self) -> u8
        ensures is { result ≡ members self.now.sizes }
        ensures some { 1 ≤ result }
        ensures few { result ≤ 128 }
    {
        self.weights.members()
    }

    /// What a member weighs.
    pub fn weight(&self, member: u8) -> u64
        ensures is { result ≡ weight self.now.sizes member }
        ensures small { result < 2 ^ 32 }
        ensures some { 1 ≤ total self.now.sizes }
        ensures light { total self.now.sizes < 2 ^ 39 }
    {
        self.weights.weight(member)
    }

    /// The weight that may be faulty.
    pub fn faulty(&self) -> u64
        ensures is { result ≡ faulty self.now.sizes }
        ensures small { result < 2 ^ 38 }
    {
        self.weights.faulty()
    }

    /// The leader of an odd round.
    pub fn leader(&self, round: u32) -> u8
        requires { 1 ≤ round }
        ensures is { result ≡ leader self.now.sizes round }
        ensures member { result < members self.now.sizes }
    {
        self.weights.leader(round)
    }

    /// What these members weigh together.
    pub fn weight_of(&self, set: Members) -> u64
        requires { (x : ℕ) → Has set x → x < members self.now.sizes }
        ensures { IsWeightOf self.now.sizes set result }
    {
        self.weights.weight_of(set)
    }
}

// The number of the admitted certificate of this place.
fn admitted_number(names: &Names, places: &PlaceIndex, place: CertRef) -> Option<usize>
    requires names { AreNames names.now }
    requires placed { IsPlaced names.now.slots (number_of places.now) }
    ensures found { IfSome result (IsNumberAt names.now place) }
    ensures none { IfNone result ((k : ℕ) → IsNumberAt names.now place k → 1 ≤ place.round → ⊥) }
{
    match places.get(place) {
        Some(number) => {
            if names.marks[number] {
                Some(number)
            } else {
                None
            }
        }
        None => None,
    }
}

// The places of what is held and not admitted, in the order of their numbers.
fn waiting_places(alloc: Global, names: &Names) -> Result<Vec<CertRef>, AllocError>
    requires { AreNames names.now }
    ensures { IfOk result (λ places. (a : CertRef) → Contains places.items a
        ↔ WaitsBelow names.now (length names.now.slots) a) }
{
    let mut places = Vec::new(alloc);
    for number in 0..names.slots.len() {
        let slot = &names.slots.as_slice()[number];
        if slot.round > 0 && !names.marks[number] {
            places.push(CertRef {
                round: slot.round,
                author: slot.author,
            })?;
        }
    }
    Ok(places)
}
