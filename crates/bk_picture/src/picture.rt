//! What is drawn of some rounds.

ghost use Rattle.std.specs.Prelude.{◌≡◌, ◌≤◌, IfOk, length};
ghost use Rattle.bk_commit.specs.Ordering.{IsCommitted};
ghost use Rattle.bk_picture.specs.Picture.{HoldSame, IsPictureOf, graph_of};

use crate::columns::columns_of;
use crate::last::{last_of, shown_of};
use crate::links::{Links, links_of};
use crate::marks::marks_of;
use bk_digest::Digest32;
use bk_order::Intake;
use bk_rounds::{Members, Rounds};
use bk_views::{AnchorRow, anchor_rows};
use std::alloc::{AllocError, Global};

/// What became of a held certificate.
#[derive(Clone, Copy, Debug, PartialEq, Eq)]
pub enum Class {
    /// It is in the order.
    Ordered,
    /// It is admitted, and not in the order.
    Admitted,
    /// It is held, and not admitted.
    Waiting,
}

/// A certificate that is held.
#[derive(Clone, Copy, Debug, PartialEq, Eq)]
pub struct Circle {
    /// Its id: SHA-256 of the byte 0x10 and its header.
    pub id: Digest32,
    /// What became of it.
    pub class: Class,
}

/// The place of a member in a round.
#[derive(Clone, Copy)]
pub struct Cell {
    /// The member.
    pub member: u8,
    /// Its certificate, `None` where none is held.
    pub circle: Option<Circle>,
    /// The parents of its certificate that are held, as members of the round before, where that round is drawn.
    pub parents: Members,
    /// The one of them that leads the round before, if that is an odd one and the certificate is admitted: it votes for
    /// that one.
    pub vote: Option<u8>,
}

/// A round.
#[derive(Drop)]
pub struct Column {
    /// Its number.
    pub round: u32,
    /// What became of its anchor, where `anchors` has a line of it.
    pub ring: Option<AnchorRow>,
    /// A cell for each member, in their order.
    pub cells: Vec<Cell>,
}

/// Some rounds of the certificates that are held.
#[derive(Drop)]
pub struct Picture {
    /// The first round.
    pub from: u32,
    /// How many rounds are drawn.
    pub count: u32,
    /// The greatest round of all certificates that are held, 0 where none is held.
    pub last: u32,
    /// How many members there are.
    pub members: u8,
    /// Which links are drawn.
    pub links: Links,
    /// How many frames of the whole feed have a certificate that is rejected.
    pub rejected: u64,
    /// A column for each round, in their order.
    pub columns: Vec<Column>,
}

/// The picture of `count` rounds from the round `from` on, or of fewer where the last round comes before, of what was
/// taken, whose table of rounds this is, with the links that are asked for: where none are named all of up to
/// [`MOST_LINKED`](crate::MOST_LINKED) members, and of more the votes alone. O(members) for each round that is drawn, and for each two rounds up to the last;
/// O(log n) for each certificate that is drawn and for each parent of one of these that waits, O(1) for each other one
/// that is held, and O(n log n) where n of them wait.
pub fn picture_of(
    alloc: Global,
    intake: &Intake,
    rounds: &Rounds,
    from: u32,
    count: u32,
    links: Option<Links>,
) -> Result<Picture, AllocError>
    requires committed { IsCommitted rounds.now.sizes rounds.now.held intake.now.ordered.anchors }
    requires same { HoldSame intake.now.kept.certs rounds.now.held }
    requires first { (1 ≤ from) × (from ≤ 1000000) }
    requires few { count ≤ 1000 }
    ensures picture { IfOk result (IsPictureOf (graph_of rounds.now intake.now) from count links) }
    ensures rejected { IfOk result (λ p. p.rejected ≡ length intake.now.kept.rejected) }
{
    let last = last_of(rounds)?;
    let shown = shown_of(from, count, last);
    let rows = anchor_rows(alloc, rounds, intake.anchors())?;
    let marks = marks_of(alloc, intake.order(), from, shown)?;
    let columns = columns_of(alloc, rounds, intake.held(), &rows, &marks, from, shown)?;
    let members = rounds.members();
    Ok(Picture {
        from,
        count: shown,
        last,
        members,
        links: links_of(links, members),
        rejected: intake.rejected().len() as u64,
        columns,
    })
}
