//! Why a feed has no order.

ghost use Rattle.std.specs.Prelude.{◌≡◌, ◌++◌, MatchOption, IfOk, Option, Some, List, ℕ};
ghost use Rattle.bk_order.specs.Stops.{AreClear, CollidesIn, IsLeastCollision, IsStopOf};
ghost use Rattle.bk_evidence.specs.Batches.{AreApart, IsBatchCollision};
ghost use Rattle.bk_evidence.specs.Held.{IsCollision, NoCollision};
ghost use Rattle.bk_order.specs.private.Lesser.{lesser_of};
ghost use Rattle.bk_evidence.specs.Collisions.{id_cmp};
ghost use Rattle.bk_evidence.specs.private.Least.{least_of};

use bk_digest::Digest32;
use bk_evidence::{Batches, Evidence, Held};
use std::alloc::AllocError;
use std::cmp::Ordering;

/// Why a feed has no report. A collision goes before twins.
#[derive(Clone, Copy, Debug, PartialEq, Eq)]
pub enum Stop {
    /// The least id with two headers or digest with two payloads.
    Collision(Digest32),
    /// The evidence that a member made two headers for one round.
    Twins(Evidence),
}

// The lesser of two.
fn lesser(id: Digest32, digest: Digest32) -> Digest32
    ensures { result ≡ least_of id_cmp (Some id) digest }
{
    match digest.cmp(&id) {
        Ordering::Less => digest,
        Ordering::Equal | Ordering::Greater => id,
    }
}

// The least of two that may be there.
fn least(one: Option<Digest32>, other: Option<Digest32>) -> Option<Digest32>
    ensures { result ≡ lesser_of one other }
{
    match one {
        None => other,
        Some(id) => match other {
            None => one,
            Some(digest) => Some(lesser(id, digest)),
        },
    }
}

/// The stop of what is held.
pub(crate) fn stop_of(held: &Held, batches: &Batches) -> Option<Stop>
    ensures { MatchOption result (AreClear held.now batches.now) (IsStopOf held.now batches.now) }
{
    match least(held.collision(), batches.collision()) {
        Some(id) => Some(Stop::Collision(id)),
        None => match held.evidence() {
            Some(evidence) => Some(Stop::Twins(evidence)),
            None => None,
        },
    }
}

/// The stop of what both hold together. The table of the certificates of both is built once.
pub(crate) fn stop_of_both(
    held: &Held,
    more: &Held,
    batches: &Batches,
    others: &Batches,
) -> Result<Option<Stop>, AllocError>
    ensures { IfOk result (λ found. MatchOption found
        (AreClear (held.now ++ more.now) (batches.now ++ others.now))
        (IsStopOf (held.now ++ more.now) (batches.now ++ others.now))) }
{
    let certs = held.together_with(more)?;
    let digest = batches.collision_with(others)?;
    if let Some(id) = least(certs.collision, digest) {
        return Ok(Some(Stop::Collision(id)));
    }
    match certs.evidence {
        Some(evidence) => Ok(Some(Stop::Twins(evidence))),
        None => Ok(None),
    }
}
