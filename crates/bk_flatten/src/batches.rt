//! The batches in the order.

ghost use Rattle.std.specs.Prelude.{◌≡◌, ◌≢◌, ◌++◌, ◌<◌, ◌≤◌, ℕ, List, [], None, Contains, IfOk, OnOk, OnErr, length, slice_get};
ghost use Rattle.std.specs.List.{flat_map};
ghost use Rattle.std.specs.Option.{option_copied};
ghost use Rattle.bk_cert.specs.declared.place.CertRef.{CertRef};
ghost use Rattle.bk_rounds.specs.Admission.{IsPresent};
ghost use Rattle.bk_evidence.specs.declared.batches.BatchRef.{BatchRef};
ghost use Rattle.bk_flatten.specs.Batches.{named_at, once, listed_with, AreFound, IsFoundWhole, payloads_of, batches_of};

use crate::digests::add_all;
use bk_cert::CertRef;
use bk_digest::Digest32;
use bk_evidence::{BatchRef, Batches};
use bk_index::{HashKey, KeyedList};
use bk_rounds::Rounds;
use std::alloc::{AllocError, Global};
use std::marker::Model;

/// The digests that an order names, each once, and the batches of the first of them, before one
/// that is missing. It goes on as the order and what is held grow: what was taken is not looked at
/// again, and a missing batch is asked for again at the next step.
#[derive(Drop)]
pub struct BatchList {
    alloc: Global,
    digests: KeyedList<Digest32>,
    found: Vec<BatchRef>,
}

impl Model for BatchList {
    ghost use Rattle.bk_flatten.specs.Batches.{Listed, listed_with};

    ghost Value = { Listed };

    ghost view = { λ s. listed_with s.digests s.found.items };
}

impl BatchList {
    /// The list of no order. It takes no memory.
    pub fn new(alloc: Global, key: HashKey) -> BatchList
        ensures { result ≡ listed_with [] [] }
    {
        BatchList {
            alloc,
            digests: KeyedList::new(alloc, key),
            found: Vec::new(alloc),
        }
    }

    /// The batches that are found, in the order.
    pub fn found(&self) -> &[BatchRef]
        ensures { result.now ≡ self.now.found }
    {
        self.found.as_slice()
    }

    /// The digest of the first batch that is not found, if there is one.
    pub fn missing(&self) -> Option<&Digest32>
        ensures { option_copied result ≡ slice_get self.now.digests (length self.now.found) }
    {
        self.digests.as_slice().get(self.found.len())
    }

    /// Goes on to the digests that the next part of the order names, and takes each of them once.
    ///
    /// An `Err` comes only where memory runs out, and leaves the list as it was.
    pub fn name(&mut self, rounds: &Rounds, part: &[CertRef]) -> Result<(), AllocError>
        requires present { (a : CertRef) → Contains part.now a
            → IsPresent rounds.now.sizes rounds.now.held a }
        ensures named { OnOk result ((all : List (List ℕ)) → self.old.digests ≡ once all
            → self.new.digests ≡ once (all ++ flat_map (named_at rounds.now.held) part.now)) }
        ensures found { self.new.found ≡ self.old.found }
        ensures err { OnErr result (self.new ≡ self.old) }
    {
        let named = names_in(self.alloc, rounds, part)?;
        add_all(&mut self.digests, &named)?;
        Ok(())
    }

    /// Goes on to the batches that are held, up to the first that is missing, and answers the new
    /// ones.
    ///
    /// An `Err` comes only where memory runs out, and leaves the list as it was.
    pub fn find(&mut self, batches: &Batches) -> Result<Vec<BatchRef>, AllocError>
        requires before { AreFound batches.now self.old.digests self.old.found }
        ensures whole { OnOk result (IsFoundWhole batches.now self.new) }
        ensures digests { self.new.digests ≡ self.old.digests }
        ensures part { IfOk result (λ part. self.new.found ≡ self.old.found ++ part.items) }
        ensures err { OnErr result (self.new ≡ self.old) }
    {
        let part = found_from(
            self.alloc,
            self.digests.as_slice(),
            batches,
            self.found.len(),
        )?;
        self.found.extend_from_slice(&part)?;
        Ok(part)
    }
}

// The digests that the certificates of these places name, in their order.
fn names_in(alloc: Global, rounds: &Rounds, part: &[CertRef]) -> Result<Vec<Digest32>, AllocError>
    requires { (a : CertRef) → Contains part.now a → IsPresent rounds.now.sizes rounds.now.held a }
    ensures { IfOk result (λ names. names.items ≡ flat_map (named_at rounds.now.held) part.now) }
{
    rounds.sound();
    let mut names = Vec::new(alloc);
    for place in part {
        if let Some(cert) = rounds.at(*place) {
            names.extend_from_slice(cert.header().batches())?;
        }
    }
    Ok(names)
}

// Where the batches of the digests from an index on are held, up to the first that is missing.
fn found_from(
    alloc: Global,
    digests: &[Digest32],
    batches: &Batches,
    from: usize,
) -> Result<Vec<BatchRef>, AllocError>
    ensures { IfOk result (λ part. (found : List BatchRef) → length found ≡ from
        → AreFound batches.now digests.now found
        → IsFoundWhole batches.now (listed_with digests.now (found ++ part.items))) }
{
    let mut part = Vec::new(alloc);
    for k in from..digests.len() {
        match batches.index_of(&digests[k]) {
            None => return Ok(part),
            Some(batch) => part.push(batch)?,
        }
    }
    Ok(part)
}

/// The batches of an order: each digest once, up to the first whose batch is not held.
pub fn batches_of(
    alloc: Global,
    order: &[CertRef],
    rounds: &Rounds,
    batches: &Batches,
) -> Result<BatchList, AllocError>
    requires present { (a : CertRef) → Contains order.now a
        → IsPresent rounds.now.sizes rounds.now.held a }
    ensures { IfOk result (λ list. payloads_of batches.now list
        ≡ batches_of rounds.now.held batches.now order.now) }
{
    let mut list = BatchList::new(alloc, batches.key());
    list.name(rounds, order)?;
    list.find(batches)?;
    Ok(list)
}
