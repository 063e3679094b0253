//! The table of certificates, and the votes that they give.

ghost use Rattle.std.specs.Prelude.{◌^◌, ◌≡◌, ◌++◌, ◌∷◌, OnOk, OnErr, ℕ, ◌-◌, ◌<◌, ◌≤◌, ◌↔◌, [], Contains, IfSome, IfNone, IfOk, IsTrue, MatchOption};
ghost use Rattle.bk_committee.specs.Sizes.{members, faulty, leader};
ghost use Rattle.bk_committee.specs.Payload.{sizes_of};
ghost use Rattle.bk_cert.specs.Node.{Node};
ghost use Rattle.bk_cert.specs.Place.{place_of, Lists};
ghost use Rattle.bk_cert.specs.Clear.{IsClear};
ghost use Rattle.bk_cert.specs.declared.place.CertRef.{CertRef};
ghost use Rattle.bk_rounds.specs.Admission.{StandsAt, IsPresent, AreFit, WaitsAt, last_round};
ghost use Rattle.bk_rounds.specs.Links.{Links};
ghost use Rattle.bk_rounds.specs.Members.{Has, IsWeightOf};
ghost use Rattle.bk_rounds.specs.Rounds.{rounds_with, BecomesPresent, IsAddable};
ghost use Rattle.bk_rounds.specs.Votes.{IsVoted, IsLast, VotesIn, WeighExactly};

use crate::members::Members;
use crate::table::Table;
use crate::votes::{Votes, count};
use bk_cert::{CertRef, SharedCert};
use bk_committee::Committee;
use bk_digest::Digest32;
use bk_index::HashKey;
use std::alloc::{AllocError, Global};
use std::marker::Model;

/// The held certificates of a committee, which of them are admitted, and the votes for anchors.
/// Contracts see it as the committee's sizes and the certificates in the order in which they were
/// added.
#[derive(Drop)]
pub struct Rounds {
    table: Table,
    votes: Votes,
}

impl Model for Rounds {
    ghost use Rattle.bk_rounds.specs.Rounds.{RoundsValue};
    ghost use Rattle.bk_rounds.specs.private.Tally.{AreCounted};

    ghost Value = { RoundsValue };

    ghost view = { λ s. s.table };

    ghost invariant = { λ s. AreCounted s.table.sizes s.table.held s.votes };
}

impl Rounds {
    /// A table with no certificate, of a committee.
    pub fn new(alloc: Global, committee: &Committee, key: HashKey) -> Result<Rounds, AllocError>
        ensures { IfOk result (λ rounds. rounds ≡ rounds_with (sizes_of committee.now) []) }
    {
        // The number of members also says that it is 1 to 128.
        let _ = committee.n();
        let table = Table::with_weights(alloc, committee.weights(), key)?;
        Ok(Rounds {
            table,
            votes: Votes::new(alloc),
        })
    }

    /// Adds a certificate, and answers the places of all that this makes admitted, by round and
    /// author.
    ///
    /// An `Err` comes only where memory runs out, and leaves the table as it was.
    pub fn add(&mut self, cert: SharedCert) -> Result<Vec<CertRef>, AllocError>
        requires { IsAddable self.old cert }
        ensures ok { OnOk result (self.new ≡ rounds_with self.old.sizes
            (self.old.held ++ cert ∷ [])) }
        ensures err { OnErr result (self.new ≡ self.old) }
        ensures answer { IfOk result (λ out. Lists out.items (BecomesPresent self.old self.new)) }
    {
        self.table.sound();
        self.votes.make_room(self.table.held())?;
        let places = self.table.add(cert)?;
        self.table.sound();
        count(&self.table, &mut self.votes, &places);
        Ok(places)
    }

    /// The admitted certificate of this place.
    pub fn at(&self, place: CertRef) -> Option<&SharedCert>
        ensures found { IfSome result (λ c. StandsAt self.now.sizes self.now.held place c.now) }
        ensures none { IfNone result (IsPresent self.now.sizes self.now.held place → ⊥) }
    {
        self.table.at(place)
    }

    /// The parents of the admitted certificate of this place, as members of the round before;
    /// nobody where there is none.
    pub fn parents_of(&self, place: CertRef) -> Members
        ensures { (x : ℕ) → Has result x
            ↔ Links self.now.sizes self.now.held place
            (record { round = place.round - 1; author = x }) }
    {
        self.table.parents_of(place)
    }

    /// Whether a certificate of this place is held.
    pub fn has(&self, place: CertRef) -> bool
        ensures { IsTrue result ↔ ((c : Node) × Contains self.now.held c × (place_of c ≡ place)) }
    {
        self.table.has(place)
    }

    /// Whether a certificate with this id is held.
    pub fn has_id(&self, id: &Digest32) -> bool
        ensures { IsTrue result ↔ ((c : Node) × Contains self.now.held c × (c.id ≡ id.now)) }
    {
        self.table.has_id(id)
    }

    /// The places of the certificates that are held and not admitted, by round and author.
    pub fn waiting(&self) -> Result<Vec<CertRef>, AllocError>
        ensures { IfOk result
            (λ places. Lists places.items (WaitsAt self.now.sizes self.now.held)) }
    {
        self.table.waiting()
    }

    /// What is held is good, and no two of it share an id or a place.
    pub fn sound(&self)
        ensures good { AreFit self.now.sizes self.now.held }
        ensures clear { IsClear self.now.held }
    {
        self.table.sound()
    }

    /// The greatest round of an admitted certificate; 0 where none is admitted.
    pub fn top(&self) -> u32
        ensures highest { (a : CertRef) → IsPresent self.now.sizes self.now.held a
            → a.round ≤ result }
        ensures to_last { result ≤ last_round }
        ensures reached { 0 < result → (a : CertRef) × IsPresent self.now.sizes self.now.held a
            × (a.round ≡ result) }
    {
        self.table.top()
    }

    /// How many members there are.
    pub fn members(&self) -> u8
        ensures is { result ≡ members self.now.sizes }
        ensures some { 1 ≤ result }
        ensures few { result ≤ 128 }
    {
        self.table.members()
    }

    /// The weight that may be faulty.
    pub fn faulty(&self) -> u64
        ensures is { result ≡ faulty self.now.sizes }
        ensures small { result < 2 ^ 38 }
    {
        self.table.faulty()
    }

    /// The leader of an odd round.
    pub fn leader(&self, round: u32) -> u8
        requires { 1 ≤ round }
        ensures is { result ≡ leader self.now.sizes round }
        ensures member { result < members self.now.sizes }
    {
        self.table.leader(round)
    }

    /// What these members weigh together.
    pub fn weight_of(&self, set: Members) -> u64
        requires { (x : ℕ) → Has set x → x < members self.now.sizes }
        ensures { IsWeightOf self.now.sizes set result }
    {
        self.table.weight_of(set)
    }

    /// What the voters for the anchor of a round weigh together; 0 where the round has no anchor.
    pub fn votes_weight(&self, round: u32) -> u64
        ensures { WeighExactly self.now.sizes (VotesIn self.now.sizes self.now.held round) result }
    {
        self.votes.at(round)
    }

    /// The voted anchor of the greatest round. It is known, and costs no search.
    pub fn newest_voted(&self) -> Option<CertRef>
        ensures { MatchOption result ((a : CertRef) → IsVoted self.now.sizes self.now.held a → ⊥)
            (IsLast self.now.sizes self.now.held) }
    {
        let round = self.votes.newest;
        if round == 0 {
            return None;
        }
        Some(CertRef {
            round,
            author: self.table.leader(round),
        })
    }
}
