//! The batches that are held, by digest.

ghost use Rattle.std.specs.Prelude.{◌==◌, ◌≡◌, ◌≢◌, ◌++◌, ◌∷◌, ◌<◌, ◌↔◌, [], length, Contains, IfOk, OnOk, OnErr, None, false, IsOk, IsTrue, MatchOption, option_map, slice_index_or, IfSome};
ghost use Rattle.std.specs.List.{position};
ghost use Rattle.bk_evidence.specs.Batches.{Batch, AreApart, IsBatchCollision, IsBatchOffer, batch_with, batches_after, has_digest, payload_of};
ghost use Rattle.bk_evidence.specs.Collisions.{id_cmp};
ghost use Rattle.bk_evidence.specs.private.Named.{CollidesWith, HasOther};
ghost use Rattle.bk_evidence.specs.private.Least.{IsLeastBy};

use crate::least::{least_id, lesser_id};
use bk_digest::Digest32;
use bk_index::{HashKey, Keyed, KeyedList};
use std::alloc::{AllocError, Global};
use std::marker::Model;

/// What an offer of a batch answers.
#[derive(Clone, Copy, Debug, PartialEq, Eq)]
pub enum BatchOffer {
    /// Nothing was held under this digest.
    New,
    /// This payload was held under this digest: nothing changes.
    Repeat,
    /// Other payloads alone were held under this digest.
    Collision,
}

/// A batch among those that are held: its index in the order in which they were stored.
#[derive(Clone, Copy, Debug, PartialEq, Eq)]
pub struct BatchRef {
    /// The index, from 0.
    pub index: usize,
}

// A payload under its digest.
#[derive(Drop)]
struct Stored {
    digest: Digest32,
    payload: Vec<u8>,
}

impl Model for Stored {
    ghost use Rattle.bk_evidence.specs.Batches.{Batch, batch_with};

    ghost Value = { Batch };

    ghost view = { λ s. batch_with s.digest s.payload.items };
}

impl Keyed for Stored {
    ghost key_of = { λ b. b.digest };

    fn key(&self) -> &Digest32 {
        &self.digest
    }
}

/// The batches that were offered, each distinct pair of a digest and a payload once. Contracts see
/// them in the order in which they were stored.
///
/// A batch takes its payload and some 110 bytes. Digests are handed in: that a digest is its
/// payload's is the caller's concern.
#[derive(Drop)]
pub struct Batches {
    key: HashKey,
    stored: KeyedList<Stored>,
    collision: Option<Digest32>,
}

impl Model for Batches {
    ghost use Rattle.std.specs.Prelude.{List};
    ghost use Rattle.bk_evidence.specs.Batches.{Batch};
    ghost use Rattle.bk_evidence.specs.Collisions.{CollidesBy, id_cmp};
    ghost use Rattle.bk_evidence.specs.private.Least.{IsLeastBy};

    ghost Value = { List Batch };

    ghost view = { λ b. b.stored };

    ghost invariant = { λ b.
        IsLeastBy id_cmp (CollidesBy (λ (e : Batch). e.digest) b.stored) b.collision };
}

impl Batches {
    /// No batch. It takes no memory.
    pub fn new(alloc: Global, key: HashKey) -> Batches
        ensures { result ≡ [] }
    {
        Batches {
            key,
            stored: KeyedList::new(alloc, key),
            collision: None,
        }
    }

    /// Stores a payload under a digest, unless it is stored there. Constant time, while no two payloads
    /// have one digest.
    ///
    /// An `Err` comes only where memory runs out, and leaves what is held as it was.
    pub fn offer(&mut self, digest: Digest32, payload: Vec<u8>) -> Result<BatchOffer, AllocError>
        ensures answer { IfOk result
            (IsBatchOffer self.old (batch_with digest payload.items)) }
        ensures stored { IfOk result
            (λ o. self.new ≡ batches_after self.old (batch_with digest payload.items) o) }
        ensures unchanged { OnErr result (self.new ≡ self.old) }
    {
        let batch = Stored { digest, payload };
        let Some((first, batch)) = self.stored.first_of(batch)? else {
            return Ok(BatchOffer::New);
        };
        if is_stored(self.stored.as_slice(), first, &batch) {
            return Ok(BatchOffer::Repeat);
        }
        self.stored.push(batch)?;
        self.collision = Some(least_id(self.collision, digest));
        Ok(BatchOffer::Collision)
    }

    /// The payload under a digest, the one that was offered first.
    pub fn get(&self, digest: &Digest32) -> Option<&[u8]>
        ensures { option_map (λ p. p.now) result ≡ payload_of self.now digest.now }
    {
        let index = self.stored.get(digest)?;
        Some(payload_at(self.stored.as_slice(), index))
    }

    /// The index of the batch whose payload `get` gives.
    pub fn index_of(&self, digest: &Digest32) -> Option<BatchRef>
        ensures { option_map (λ b. b.index) result ≡ position (has_digest digest.now) self.now }
    {
        let index = self.stored.get(digest)?;
        Some(BatchRef { index })
    }

    /// The key of the table by digest.
    pub fn key(&self) -> HashKey {
        self.key
    }

    /// How many batches are held.
    pub fn len(&self) -> usize
        ensures { result ≡ length self.now }
    {
        self.stored.len()
    }

    /// Whether no batch is held.
    pub fn is_empty(&self) -> bool
        ensures { result ≡ (length self.now == 0) }
    {
        self.stored.is_empty()
    }

    /// The digest under which a batch is held.
    pub fn digest(&self, batch: BatchRef) -> Digest32
        requires { batch.index < length self.now }
        ensures { (d : Batch) → result ≡ (slice_index_or self.now batch.index d).digest }
    {
        batch_at(self.stored.as_slice(), batch.index).digest
    }

    /// The payload of a batch.
    pub fn payload(&self, batch: BatchRef) -> &[u8]
        requires { batch.index < length self.now }
        ensures { (d : Batch) → result.now ≡ (slice_index_or self.now batch.index d).payload }
    {
        payload_at(self.stored.as_slice(), batch.index)
    }

    /// The least digest under which two payloads are held.
    pub fn collision(&self) -> Option<Digest32>
        ensures { MatchOption result (AreApart self.now) (IsBatchCollision self.now) }
    {
        self.collision
    }

    /// The collision over what both hold together.
    ///
    /// It goes over the other's batches and takes no memory, so it never fails. Its shape is that
    /// of `Held::collision_with`.
    pub fn collision_with(&self, other: &Batches) -> Result<Option<Digest32>, AllocError>
        ensures found { IfOk result (λ found. MatchOption found
            (AreApart (self.now ++ other.now)) (IsBatchCollision (self.now ++ other.now))) }
        ensures succeeds { IsOk result }
    {
        let known = lesser_id(self.collision, other.collision);
        Ok(least_across(&self.stored, other.stored.as_slice(), known))
    }
}

// The least of the digest that is known, if one is, and of those under which the one list and the
// other have different payloads.
fn least_across(
    stored: &KeyedList<Stored>,
    more: &[Stored],
    known: Option<Digest32>,
) -> Option<Digest32>
    requires { IsLeastBy id_cmp (CollidesWith stored.now more.now 0) known }
    ensures { IsLeastBy id_cmp (CollidesWith stored.now more.now (length more.now)) result }
{
    let mut least = known;
    for batch in more {
        if has_other(stored, batch) {
            least = Some(least_id(least, batch.digest));
        }
    }
    least
}

// Whether the first batch under the digest of this one has another payload.
fn has_other(stored: &KeyedList<Stored>, batch: &Stored) -> bool
    ensures yes { IsTrue result → HasOther stored.now batch.now }
    ensures no { result ≡ false → HasOther stored.now batch.now → Contains stored.now batch.now }
{
    match stored.get(&batch.digest) {
        None => false,
        Some(index) => {
            let first = batch_at(stored.as_slice(), index);
            !is_same(first, batch)
        }
    }
}

// The batch at an index.
fn batch_at(stored: &[Stored], index: usize) -> &Stored
    requires { index < length stored.now }
    ensures { (d : Batch) → result.now ≡ slice_index_or stored.now index d }
{
    &stored[index]
}

// The payload at an index.
fn payload_at(stored: &[Stored], index: usize) -> &[u8]
    requires { index < length stored.now }
    ensures { (d : Batch) → result.now ≡ (slice_index_or stored.now index d).payload }
{
    let batch = batch_at(stored, index);
    batch.payload.as_slice()
}

// Whether the batch is stored. A repeat of the first one under its digest is found at once.
fn is_stored(stored: &[Stored], first: usize, batch: &Stored) -> bool
    ensures { IsTrue result ↔ Contains stored.now batch.now }
{
    is_first(stored, first, batch) || is_among(stored, batch)
}

// Whether the batch is the one at this index.
fn is_first(stored: &[Stored], first: usize, batch: &Stored) -> bool
    ensures { IsTrue result → Contains stored.now batch.now }
{
    match stored.get(first) {
        Some(other) => is_same(other, batch),
        None => false,
    }
}

// Whether the batch is one of these.
fn is_among(stored: &[Stored], batch: &Stored) -> bool
    ensures { IsTrue result ↔ Contains stored.now batch.now }
{
    for other in stored {
        if is_same(other, batch) {
            return true;
        }
    }
    false
}

// Whether two batches have the same digest and the same payload.
fn is_same(one: &Stored, other: &Stored) -> bool
    ensures { IsTrue result ↔ (one.now ≡ other.now) }
{
    one.digest == other.digest && one.payload == other.payload
}
