//! What an anchor adds to the order.

ghost use Rattle.std.specs.Prelude.{◌≡◌, ℕ, ◌<◌, ◌≤◌, ◌↔◌, ◌⊎◌, reverse, Contains, length, OnOk};
ghost use Rattle.bk_cert.specs.Place.{IsListed};
ghost use Rattle.bk_cert.specs.declared.place.CertRef.{CertRef};
ghost use Rattle.bk_rounds.specs.Members.{Has};
ghost use Rattle.bk_flatten.specs.private.Part.{IsNewAt, Gains, marks_of};

use bk_cert::CertRef;
use bk_rounds::Members;
use std::alloc::AllocError;

/// The set of this round.
pub(crate) fn marks_at(marks: &[Members], round: u32) -> Members
    ensures { (x : ℕ) → Has result x ↔ Has (marks_of marks.now round) x }
{
    match marks.get(round as usize) {
        Some(set) => *set,
        None => Members::none(),
    }
}

// One more than the last of these members; 0 where there is none.
fn end_of(set: Members) -> u8
    requires few { (x : ℕ) → Has set x → x < 128 }
    ensures above { (x : ℕ) → Has set x → x < result }
    ensures few { result ≤ 128 }
{
    let mut left = set;
    let mut end = 0u8;
    while let Some(x) = left.pop() {
        end = x + 1;
    }
    end
}

/// Adds the places of these authors in a round, the last author first.
pub(crate) fn push_level(
    out: &mut Vec<CertRef>,
    fresh: Members,
    round: u32,
) -> Result<(), AllocError>
    requires few { (x : ℕ) → Has fresh x → x < 128 }
    requires above { (c : CertRef) → Contains out.old.items c → round < c.round }
    requires listed { IsListed (reverse out.old.items) }
    ensures listed { OnOk result (IsListed (reverse out.new.items)) }
    ensures gains { OnOk result (Gains out.old.items out.new.items (IsNewAt fresh round 0)) }
{
    let mut author = end_of(fresh);
    while author > 0 {
        author -= 1;
        if fresh.has(author) {
            out.push(CertRef { round, author })?;
        }
    }
    Ok(())
}

/// Makes room for the sets of all rounds up to this one.
pub(crate) fn make_rows(marks: &mut Vec<Members>, round: u32) -> Result<(), AllocError>
    ensures same { (r x : ℕ) → Has (marks_of marks.new.items r) x
        ↔ Has (marks_of marks.old.items r) x }
    ensures long { OnOk result (round < length marks.new.items) }
{
    while marks.len() <= round as usize {
        marks.push(Members::none())?;
    }
    Ok(())
}

/// Marks what was ordered.
pub(crate) fn mark(marks: &mut [Members], part: &[CertRef])
    requires rounds { (c : CertRef) → Contains part.now c → c.round < length marks.old }
    requires authors { (c : CertRef) → Contains part.now c → c.author < 128 }
    ensures { (r x : ℕ) → Has (marks_of marks.new r) x ↔ (Has (marks_of marks.old r) x
        ⊎ Contains part.now (record { round = r; author = x })) }
{
    for c in part {
        let round = c.round as usize;
        marks[round] = marks[round].with(c.author);
    }
}
