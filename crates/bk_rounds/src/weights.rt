//! What the members weigh.

ghost use Rattle.std.specs.Prelude.{◌≡◌, ℕ, ◌<◌, ◌≤◌, ◌^◌, List, IfOk, sum, length};
ghost use Rattle.bk_committee.specs.Sizes.{members, total, faulty, quorum, weight, leader};
ghost use Rattle.bk_rounds.specs.Members.{Has, IsWeightOf};
ghost use Rattle.bk_rounds.specs.Rounds.{sizes_with};

use crate::members::Members;
use std::alloc::{AllocError, Global};
use std::marker::Model;

/// The weights of 1 to 128 members. Contracts see them as the committee's sizes.
#[derive(Drop)]
pub(crate) struct Weights {
    each: Vec<u32>,
    total: u64,
}

impl Model for Weights {
    ghost use Rattle.bk_committee.specs.Sizes.{Sizes};
    ghost use Rattle.bk_rounds.specs.Rounds.{sizes_with};
    ghost use Rattle.bk_rounds.specs.private.Numbered.{IsScale};

    ghost Value = { Sizes };

    ghost view = { λ s. sizes_with s.each.items };

    ghost invariant = { λ s. IsScale (sizes_with s.each.items) s.total };
}

impl Weights {
    /// The weights of these members, each above 0.
    pub fn new(alloc: Global, weights: &[u32]) -> Result<Weights, AllocError>
        requires some { 1 ≤ length weights.now }
        requires few { length weights.now ≤ 128 }
        requires heavy { 1 ≤ sum weights.now }
        ensures { IfOk result (λ z. z ≡ sizes_with weights.now) }
    {
        let mut total = 0u64;
        for weight in weights {
            total += u64::from(*weight);
        }
        let each = weights.to_vec(alloc)?;
        Ok(Weights { each, total })
    }

    /// How many members there are.
    pub fn members(&self) -> u8
        ensures is { result ≡ members self.now }
        ensures some { 1 ≤ result }
        ensures few { result ≤ 128 }
    {
        self.each.len() as u8
    }

    /// What a member weighs; 0 for a number that is no member's.
    pub fn weight(&self, member: u8) -> u64
        ensures is { result ≡ weight self.now member }
        ensures small { result < 2 ^ 32 }
        ensures some { 1 ≤ total self.now }
        ensures light { total self.now < 2 ^ 39 }
    {
        // What all members weigh is in these bounds.
        let _all = self.total;
        match self.each.get(usize::from(member)) {
            Some(weight) => u64::from(*weight),
            None => 0,
        }
    }

    /// The weight that may be faulty.
    pub fn faulty(&self) -> u64
        ensures is { result ≡ faulty self.now }
        ensures small { result < 2 ^ 38 }
    {
        (self.total - 1) / 3
    }

    /// The weight of a quorum.
    pub fn quorum(&self) -> u64
        ensures is { result ≡ quorum self.now }
        ensures some { 1 ≤ result }
        ensures small { result < 2 ^ 40 }
    {
        self.total - self.faulty()
    }

    /// The leader of an odd round.
    pub fn leader(&self, round: u32) -> u8
        requires { 1 ≤ round }
        ensures is { result ≡ leader self.now round }
        ensures member { result < members self.now }
    {
        ((round - 1) / 2 % u32::from(self.members())) as u8
    }

    /// What these members weigh together.
    pub fn weight_of(&self, set: Members) -> u64
        requires { (x : ℕ) → Has set x → x < members self.now }
        ensures { IsWeightOf self.now set result }
    {
        // What all members weigh is above the sum.
        let _all = self.total;
        let mut sum = 0u64;
        let mut left = set;
        while let Some(member) = left.pop() {
            sum += self.weight(member);
        }
        sum
    }
}
