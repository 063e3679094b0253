//! The rounds of committed anchors.

ghost use Rattle.std.specs.Prelude.{◌≡◌, ◌<◌, ◌↔◌, ◌⊎◌, ℕ, IfOk, slice_set, true};
ghost use Rattle.bk_views.specs.Anchors.{IsPassed};
ghost use Rattle.bk_views.specs.private.States.{AreMarks};

use bk_cert::CertRef;
use std::alloc::{AllocError, Global};

// Marks a round, if it is one of them.
fn mark(marks: &mut Vec<bool>, round: usize)
    ensures { marks.new.items ≡ slice_set marks.old.items round true }
{
    if round < marks.len() {
        marks[round] = true;
    }
}

/// Which rounds below `end` have one of these anchors.
pub(crate) fn marks_of(
    alloc: Global,
    anchors: &[CertRef],
    end: usize,
) -> Result<Vec<bool>, AllocError>
    ensures { IfOk result (λ marks. AreMarks anchors.now end marks.items) }
{
    let mut marks = vec![in alloc; false; end]?;
    for anchor in anchors {
        mark(&mut marks, anchor.round as usize);
    }
    Ok(marks)
}

// The greater of two rounds.
fn later(one: u32, other: u32) -> u32
    ensures { (round : ℕ) → round < result ↔ ((round < one) ⊎ (round < other)) }
{
    if one < other { other } else { one }
}

/// The greatest round of these anchors, 0 where there is none.
pub(crate) fn newest_of(anchors: &[CertRef]) -> u32
    ensures { (round : ℕ) → round < result ↔ IsPassed anchors.now round }
{
    let mut newest = 0;
    for anchor in anchors {
        newest = later(newest, anchor.round);
    }
    newest
}
