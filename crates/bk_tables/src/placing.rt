//! With which anchor each certificate was ordered.

ghost use Rattle.std.specs.Prelude.{◌≡◌, ◌++◌, map, IfOk, OnOk};
ghost use Rattle.bk_commit.specs.Ordering.{IsCommitted};
ghost use Rattle.bk_tables.specs.private.Placing.{ArePlaced, placed_with};

use bk_cert::CertRef;
use bk_flatten::Flat;
use bk_rounds::Rounds;
use std::alloc::{AllocError, Global};

/// A certificate of the order.
#[derive(Clone, Copy)]
pub(crate) struct Placed {
    pub cert: CertRef,
    /// The round of the committed anchor with which it was ordered.
    pub anchor: u32,
}

// Adds the certificates that were ordered with the anchor of this round.
fn add_part(placed: &mut Vec<Placed>, part: &[CertRef], anchor: u32) -> Result<(), AllocError>
    ensures { OnOk result
        (placed.new.items ≡ placed.old.items ++ map (placed_with anchor) part.now) }
{
    for cert in part {
        let cert = *cert;
        placed.push(Placed { cert, anchor })?;
    }
    Ok(())
}

/// The certificates of the order of these anchors, in that order. It is flattened again, which costs what it cost before.
pub(crate) fn placed_by(
    alloc: Global,
    rounds: &Rounds,
    anchors: &[CertRef],
) -> Result<Vec<Placed>, AllocError>
    requires { IsCommitted rounds.now.sizes rounds.now.held anchors.now }
    ensures { IfOk result (λ placed.
        ArePlaced rounds.now.sizes rounds.now.held anchors.now placed.items) }
{
    rounds.sound();
    let mut flat = Flat::new(alloc);
    let mut placed = Vec::new(alloc);
    for anchor in anchors {
        let part = flat.extend(rounds, *anchor)?;
        add_part(&mut placed, &part, anchor.round)?;
    }
    Ok(placed)
}
