//! The picture of a feed.

ghost use Rattle.std.specs.Prelude.{◌≤◌, IfOk, string_bytes};
ghost use Rattle.bk_commit.specs.Ordering.{IsCommitted};
ghost use Rattle.bk_picture.specs.Drawing.{drawing_text};
ghost use Rattle.bk_picture.specs.Picture.{HoldSame};
ghost use Rattle.bk_picture.specs.private.Shows.{ShowsPicture};

use crate::links::Links;
use crate::picture::picture_of;
use crate::svg::svg_of;
use bk_answer::{ClosedOrder, OrderAnswer};
use bk_order::Intake;
use bk_rounds::Rounds;
use std::alloc::{AllocError, Global};

// The text of the picture of what was taken.
fn text_of(
    alloc: Global,
    intake: &Intake,
    rounds: &Rounds,
    from: u32,
    count: u32,
    links: Option<Links>,
) -> Result<String, AllocError>
    requires committed { IsCommitted rounds.now.sizes rounds.now.held intake.now.ordered.anchors }
    requires same { HoldSame intake.now.kept.certs rounds.now.held }
    requires first { (1 ≤ from) × (from ≤ 1000000) }
    requires few { count ≤ 1000 }
    ensures { IfOk result (λ text.
        ShowsPicture rounds.now intake.now from count links (string_bytes text)) }
{
    let picture = picture_of(alloc, intake, rounds, from, count, links)?;
    let text = svg_of(alloc, &picture)?;
    Ok(text)
}

/// The picture of `count` rounds, 1 to 1,000, from the round `from` on, 1 to 1,000,000, up to the last round of the feed,
/// as what a feed answers: SVG 1.1.
#[derive(Clone, Copy)]
pub struct Draw {
    pub from: u32,
    pub count: u32,
    /// Which links are drawn. Where none are named: all of up to [`MOST_LINKED`](crate::MOST_LINKED) members, and of more
    /// the votes alone.
    pub links: Option<Links>,
}

impl OrderAnswer for Draw {
    type End = ();

    ghost can_ask = { λ d. (1 ≤ d.from) × (d.from ≤ 1000000) × (1 ≤ d.count) × (d.count ≤ 1000) };

    ghost text = { λ d. drawing_text d.from d.count d.links };

    fn text(&self, alloc: Global, order: &ClosedOrder<'_>) -> Result<((), Vec<u8>), AllocError> {
        let rounds = order.rounds();
        let Draw { from, count, links } = *self;
        let text = text_of(alloc, order.intake, rounds, from, count, links)?;
        Ok(((), text.into_bytes()))
    }
}
