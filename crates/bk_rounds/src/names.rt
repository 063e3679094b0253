//! Ids by number.

ghost use Rattle.std.specs.Prelude.{◌≡◌, ◌<◌, [], length, map, All, IfOk};
ghost use Rattle.bk_rounds.specs.private.Numbered.{id_of};
ghost use Rattle.bk_rounds.specs.private.Names.{AreNames, Grows};

use crate::members::Members;
use crate::rows::{has_id, likely, skip};
use crate::slots::Slot;
use crate::waking::Pending;
use bk_digest::Digest32;
use bk_index::{HashKey, KeyedList};
use std::alloc::{AllocError, Global};

/// The ids that were met, those of parents that are not held among them, each with its number: the
/// index of its slot.
///
/// What is known of a number is at that index in each of the lists, and who waits for it in
/// `pending`. An id is found in constant time.
#[derive(Drop)]
pub(crate) struct Names {
    pub slots: KeyedList<Slot>,
    pub marks: Vec<bool>,
    pub pending: Pending,
    pub sets: Vec<Members>,
    // How many are not admitted.
    pub unmarked: usize,
}

impl Names {
    /// No id.
    pub fn new(alloc: Global, key: HashKey) -> Names
        ensures slots { result.slots ≡ [] }
        ensures names { AreNames result }
    {
        Names {
            slots: KeyedList::new(alloc, key),
            marks: Vec::new(alloc),
            pending: Pending::new(alloc),
            sets: Vec::new(alloc),
            unmarked: 0,
        }
    }
}

/// The numbers of these ids. Where they ascend, most are found in the row, which is by id.
pub(crate) fn numbers_of(
    alloc: Global,
    names: &mut Names,
    row: &[u32],
    ids: &[Digest32],
) -> Result<Vec<usize>, AllocError>
    requires { AreNames names.old }
    ensures grows { Grows names.old names.new }
    ensures ids { IfOk result (λ ps. map (id_of names.new.slots) ps.items ≡ ids.now) }
    ensures inside { IfOk result (λ ps. All (λ p. p < length names.new.slots) ps.items) }
{
    let mut numbers = Vec::with_capacity(alloc, ids.len())?;
    let mut at = 0;
    for id in ids {
        at = skip(names.slots.as_slice(), row, at, id);
        let number = number_near(alloc, names, likely(row, at), id)?;
        numbers.push(number)?;
    }
    Ok(numbers)
}

// The number of an id, which it gets where it has none. The hint is a number that it may have.
fn number_near(
    alloc: Global,
    names: &mut Names,
    hint: Option<usize>,
    id: &Digest32,
) -> Result<usize, AllocError>
    requires { AreNames names.old }
    ensures grows { Grows names.old names.new }
    ensures inside { IfOk result (λ k. k < length names.new.slots) }
    ensures id { IfOk result (λ k. id_of names.new.slots k ≡ id.now) }
{
    if let Some(number) = hint {
        if has_id(names.slots.as_slice(), number, id) {
            return Ok(number);
        }
    }
    number_of(alloc, names, id)
}

/// The number of an id, which it gets where it has none. It is looked for first: an id of a parent
/// mostly has one.
pub(crate) fn number_of(
    alloc: Global,
    names: &mut Names,
    id: &Digest32,
) -> Result<usize, AllocError>
    requires { AreNames names.old }
    ensures grows { Grows names.old names.new }
    ensures inside { IfOk result (λ k. k < length names.new.slots) }
    ensures id { IfOk result (λ k. id_of names.new.slots k ≡ id.now) }
{
    if let Some(number) = names.slots.get(id) {
        return Ok(number);
    }
    own_number(alloc, names, id)
}

/// The same as `number_of`, in one search where the id has no number yet, as is usual for the id of
/// a new certificate.
pub(crate) fn own_number(
    alloc: Global,
    names: &mut Names,
    id: &Digest32,
) -> Result<usize, AllocError>
    requires { AreNames names.old }
    ensures grows { Grows names.old names.new }
    ensures inside { IfOk result (λ k. k < length names.new.slots) }
    ensures id { IfOk result (λ k. id_of names.new.slots k ≡ id.now) }
{
    names.marks.reserve(1)?;
    names.sets.reserve(1)?;
    let number = names.slots.len();
    let slot = Slot {
        id: *id,
        round: 0,
        author: 0,
        cert: 0,
        parents: Vec::new(alloc),
    };
    if let Some((known, _)) = names.slots.first_of(slot)? {
        return Ok(known);
    }
    names.marks.push_reserved(false);
    names.sets.push_reserved(Members::none());
    names.unmarked += 1;
    Ok(number)
}
