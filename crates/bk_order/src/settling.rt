//! The order as it was settled last.

ghost use Rattle.std.specs.Prelude.{◌≡◌, OnOk, [], List};
ghost use Rattle.bk_evidence.specs.Batches.{Batch};
ghost use Rattle.bk_cert.specs.Node.{Node};
ghost use Rattle.bk_committee.specs.Sizes.{Sizes};
ghost use Rattle.bk_flatten.specs.Batches.{listed_with};
ghost use Rattle.bk_order.specs.private.Joined.{IsFollowed, IsSettled, order_in};
ghost use Rattle.bk_order.specs.Intake.{nothing_ordered};

use bk_commit::Walk;
use bk_evidence::Batches;
use bk_flatten::{BatchList, Flat};
use bk_index::HashKey;
use bk_rounds::Rounds;
use std::alloc::{AllocError, Global};

/// The order as it was settled last.
#[derive(Drop)]
pub(crate) struct Settled {
    pub walk: Walk,
    pub flat: Flat,
    pub list: BatchList,
}

/// Nothing is ordered.
pub(crate) fn unsettled(alloc: Global, key: HashKey) -> Settled
    ensures followed { (z : Sizes) (held : List Node) (batches : List Batch)
        → IsFollowed z held batches result }
    ensures nothing { (batches : List Batch) → order_in batches result ≡ nothing_ordered }
{
    Settled {
        walk: Walk::new(alloc),
        flat: Flat::new(alloc),
        list: BatchList::new(alloc, key),
    }
}

/// Goes on to the anchors that are committed now, what they add to the order, and its batches.
pub(crate) fn settle(
    settled: &mut Settled,
    rounds: &Rounds,
    batches: &Batches,
) -> Result<(), AllocError>
    requires { IsFollowed rounds.now.sizes rounds.now.held batches.now settled.old }
    ensures { OnOk result (IsSettled rounds.now.sizes rounds.now.held batches.now settled.new) }
{
    rounds.sound();
    let anchors = settled.walk.advance(rounds)?;
    for anchor in &anchors {
        let part = settled.flat.extend(rounds, *anchor)?;
        settled.list.name(rounds, &part)?;
    }
    settled.list.find(batches)?;
    Ok(())
}
