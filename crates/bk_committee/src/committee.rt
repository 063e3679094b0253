//! The committee as it is read of a payload.

ghost use Rattle.std.specs.Prelude.{◌≡◌, ℕ, ◌<◌, ◌≤◌, ◌^◌, List, ◌∷◌, Some, None, length, sum, IfOk, OnOk, IfErr, IsTrue, slice_get, slice_index_or, []};
ghost use Rattle.bk_digest.specs.Prepared.{IsPrepared};
ghost use Rattle.bk_base.specs.Committee.{is_committee};
ghost use Rattle.bk_committee.specs.Payload.{committee_of, bad_of, blamed, sizes_of, IsCommittee};
ghost use Rattle.bk_committee.specs.Sizes.{members, total, faulty, quorum, weight, leader_of};

use crate::bad::Bad;
use crate::reading::{first_bad, read_members, read_weights};
use bk_base::Version;
use bk_digest::MacKey;
use std::alloc::{AllocError, Global};
use std::marker::Model;

/// A member. Contracts see it as its key.
#[derive(Drop)]
pub(crate) struct Member {
    key: [u8; 32],
    mac: MacKey,
}

impl Model for Member {
    ghost use Rattle.std.specs.Prelude.{ℕ, List};
    ghost use Rattle.bk_digest.specs.Prepared.{IsPrepared};

    ghost Value = { List ℕ };

    ghost view = { λ m. m.key };

    ghost invariant = { λ m. IsPrepared m.key m.mac };
}

impl Member {
    pub(crate) fn new(key: [u8; 32]) -> Member
        ensures { result ≡ key }
    {
        let mac = MacKey::new(&key);
        Member { key, mac }
    }

    fn key(&self) -> &[u8; 32]
        ensures { result.now ≡ self.now }
    {
        &self.key
    }

    fn mac(&self) -> &MacKey
        ensures { IsPrepared self.now result.now }
    {
        &self.mac
    }
}

/// The members of a committee, 1 to 128, numbered from 0. Contracts see it as its version with the key and the
/// weight of each member.
#[derive(Drop)]
pub struct Committee {
    version: Version,
    members: Vec<Member>,
    weights: Vec<u32>,
    total: u64,
}

impl Model for Committee {
    ghost use Rattle.std.specs.Prelude.{◌≡◌, ◌<◌, ◌≤◌, ◌^◌, sum};
    ghost use Rattle.bk_committee.specs.Payload.{CommitteeValue, committee_with, IsCommittee};

    ghost Value = { CommitteeValue };

    ghost view = { λ c. committee_with c.version c.members.items c.weights.items };

    ghost invariant = { λ c. IsCommittee (committee_with c.version c.members.items c.weights.items)
        × (c.total ≡ sum c.weights.items) × (1 ≤ c.total) × (c.total < 2 ^ 39) };
}

impl Committee {
    /// Reads a payload: one byte with the number of members, 1 to 128, then 32 bytes of key for each, and in version
    /// Two then a weight above 0 in four bytes for each.
    ///
    /// The error is [`Bad::Length`] for a payload of no bytes, then [`Bad::Count`] for a first byte of 0 or above
    /// 128, then [`Bad::Length`] for any other length, then [`Bad::Weight`] for a weight of 0, and then
    /// [`Bad::Memory`] where memory ran out.
    pub fn parse(alloc: Global, version: Version, payload: &[u8]) -> Result<Committee, Bad>
        ensures committee { OnOk result (IsTrue (is_committee version payload.now)) }
        ensures value { IfOk result (λ committee. committee ≡ committee_of version payload.now) }
        ensures refused { IfErr result (λ bad. bad_of version payload.now ≡ blamed bad) }
    {
        let Some((count, bytes)) = payload.split_first() else {
            return Err(Bad::Length);
        };
        if let Some(bad) = first_bad(version, *count, bytes) {
            return Err(bad);
        }
        match read_committee(alloc, version, *count, bytes) {
            Ok(committee) => Ok(committee),
            Err(_) => Err(Bad::Memory),
        }
    }

    /// The version of the feed that the committee is of.
    pub fn version(&self) -> Version
        ensures { result ≡ self.now.version }
    {
        self.version
    }

    /// How many members there are.
    pub fn n(&self) -> usize
        ensures members { result ≡ length self.now.keys }
        ensures some { 1 ≤ result }
        ensures few { result ≤ 128 }
        ensures committee { IsCommittee self.now }
    {
        self.members.len()
    }

    /// The weight of a member: 1 in version One.
    pub fn weight(&self, member: usize) -> u32
        requires { member < length self.now.keys }
        ensures { result ≡ weight (sizes_of self.now) member }
    {
        self.weights[member]
    }

    /// The weight of each member.
    pub fn weights(&self) -> &[u32]
        ensures all { result.now ≡ self.now.weights }
        ensures committee { IsCommittee self.now }
    {
        &self.weights
    }

    /// How much weight may be faulty: a third of all but 1, rounded down.
    pub fn f(&self) -> u64
        ensures faulty { result ≡ faulty (sizes_of self.now) }
        ensures short { result < 2 ^ 39 }
    {
        (self.total - 1) / 3
    }

    /// How much weight is a quorum: all but `f`.
    pub fn quorum(&self) -> u64
        ensures quorum { result ≡ quorum (sizes_of self.now) }
        ensures short { result < 2 ^ 39 }
    {
        self.total - self.f()
    }

    /// The member who leads the round: in an odd round ((round - 1) / 2) mod n, in an even round nobody.
    pub fn leader(&self, round: u32) -> Option<u8>
        ensures { result ≡ leader_of (sizes_of self.now) round }
    {
        if round % 2 == 1 {
            let turn = (round - 1) / 2;
            Some((turn % self.n() as u32) as u8)
        } else {
            None
        }
    }

    /// A member's key.
    pub fn key(&self, member: usize) -> &[u8; 32]
        requires { member < length self.now.keys }
        ensures { slice_get self.now.keys member ≡ Some result.now }
    {
        self.members[member].key()
    }

    /// A member's key as it was prepared for tags.
    pub fn mac(&self, member: usize) -> &MacKey
        requires { member < length self.now.keys }
        ensures { IsPrepared (slice_index_or self.now.keys member []) result.now }
    {
        self.members[member].mac()
    }

    /// The same committee once more. It fails only where memory runs out.
    pub fn try_clone(&self, alloc: Global) -> Result<Committee, AllocError>
        ensures { IfOk result (λ committee. committee ≡ self.now) }
    {
        let mut members = Vec::with_capacity(alloc, self.members.len())?;
        for member in &self.members {
            members.push(Member::new(*member.key()))?;
        }
        let mut weights = Vec::with_capacity(alloc, self.weights.len())?;
        weights.extend_from_slice(&self.weights)?;
        Ok(Committee {
            version: self.version,
            members,
            weights,
            total: self.total,
        })
    }
}

// The committee of a payload with nothing wrong: of its first byte and the others.
fn read_committee(
    alloc: Global,
    version: Version,
    count: u8,
    bytes: &[u8],
) -> Result<Committee, AllocError>
    requires good { bad_of version (count ∷ bytes.now) ≡ None }
    ensures { IfOk result (λ committee. committee ≡ committee_of version (count ∷ bytes.now)) }
{
    let members = read_members(alloc, count as usize, bytes)?;
    let weights = read_weights(alloc, version, count as usize, bytes)?;
    let total = sum_of(&weights);
    Ok(Committee {
        version,
        members,
        weights,
        total,
    })
}

// The weights added up.
fn sum_of(weights: &[u32]) -> u64
    requires few { length weights.now ≤ 128 }
    ensures sum { result ≡ sum weights.now }
{
    let mut total: u64 = 0;
    for weight in weights {
        total += u64::from(*weight);
    }
    total
}
