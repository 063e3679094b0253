//! Which certificates of some rounds are in an order.

ghost use Rattle.std.specs.Prelude.{◌≡◌, ◌+◌, ◌-◌, ◌<◌, ◌≤◌, ◌↔◌, ◌⊎◌, ℕ, IfOk, slice_index_or, length};
ghost use Rattle.bk_cert.specs.declared.place.CertRef.{CertRef};
ghost use Rattle.bk_rounds.specs.Members.{Has};
ghost use Rattle.bk_picture.specs.private.Marks.{AreMarks, has_at};

use bk_cert::CertRef;
use bk_rounds::Members;
use std::alloc::{AllocError, Global};

// Marks a place, if it is in one of the rounds and of a member that a set can have.
fn mark(marks: &mut Vec<Members>, from: u32, place: CertRef)
    ensures sized { length marks.new.items ≡ length marks.old.items }
    ensures marked { (k x : ℕ) → k < length marks.old.items → x < 128 → has_at marks.new.items k x
        ↔ (has_at marks.old.items k x ⊎ ((place.round ≡ from + k) × (place.author ≡ x))) }
{
    if place.round < from || place.author >= 128 {
        return;
    }
    let index = (place.round - from) as usize;
    if index < marks.len() {
        marks[index] = marks[index].with(place.author);
    }
}

/// The members whose certificates are in the order, for each of the rounds.
pub(crate) fn marks_of(
    alloc: Global,
    order: &[CertRef],
    from: u32,
    count: u32,
) -> Result<Vec<Members>, AllocError>
    ensures { IfOk result (λ marks. AreMarks order.now from count marks.items) }
{
    let mut marks = vec![in alloc; Members::none(); count as usize]?;
    for place in order {
        mark(&mut marks, from, *place);
    }
    Ok(marks)
}
