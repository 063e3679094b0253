//! Likely numbers of ids. A number from here is used only after its slot was compared.

ghost use Rattle.std.specs.Prelude.{◌≡◌, ◌<◌, ◌≤◌, ◌^◌, IsTrue, length};
ghost use Rattle.bk_rounds.specs.private.Numbered.{id_of};

use crate::slots::Slot;
use bk_cert::SharedCert;
use bk_digest::Digest32;
use std::alloc::{AllocError, Global};

// The rows have at most this many entries for each certificate.
const ENTRIES_FOR_EACH: usize = 16;

// The certificates that are counted besides those held. With them a committee of 128 has rows for
// its first 8 rounds (64 times 16 entries) before it has any certificate.
const FREE: usize = 64;

/// For each round a row by id, with an entry for each member: the number of a held certificate of that
/// round, plus 1, or 0 at the end of what is known.
///
/// A parent is looked up in the row of the round before, where the list of all ids costs several
/// cache misses. Nothing relies on what an entry is: one that is wrong or missing only costs the
/// search in that list. So a round may have no row, or lack what came before it was made, and one that
/// was made for a certificate whose `add` then ran out of memory stays.
#[derive(Drop)]
pub(crate) struct Rows {
    // How many members there are.
    members: u8,
    // Each row by the first bytes of the ids.
    by_id: Vec<u32>,
}

impl Rows {
    /// No row.
    pub fn new(alloc: Global, members: u8) -> Rows {
        Rows {
            members,
            by_id: Vec::new(alloc),
        }
    }

    /// Makes the row of each round up to a certificate's, unless they would have more than 16
    /// entries for each certificate. So a round far above the others gets no row, and neither do
    /// rounds in which few of many members have a certificate: memory follows what is held.
    pub fn open(&mut self, cert: &SharedCert, held: usize) -> Result<(), AllocError> {
        let round = cert.header().round();
        if round == 0 {
            return Ok(());
        }
        let end = self.start_of(round) + usize::from(self.members);
        if end <= self.by_id.len() || end / ENTRIES_FOR_EACH > held.saturating_add(FREE) {
            return Ok(());
        }
        self.by_id.resize(end, 0)
    }

    /// Enters the certificate of this number, where its round has a row.
    pub fn enter(&mut self, slots: &[Slot], number: usize) {
        let Some(slot) = slots.get(number) else {
            return;
        };
        let entry = entry_of(number);
        if slot.round == 0 || entry == 0 {
            return;
        }
        let start = self.start_of(slot.round);
        let end = start + usize::from(self.members);
        if slot.author >= self.members || end > self.by_id.len() {
            return;
        }
        let row = &mut self.by_id[start..end];
        let at = skip(slots, row, 0, &slot.id);
        insert(row, at, entry);
    }

    /// The row by id of the round before a certificate's; none where it is not kept.
    pub fn before(&self, cert: &SharedCert) -> &[u32] {
        let round = cert.header().round();
        if round < 2 {
            return &[];
        }
        let start = self.start_of(round - 1);
        match self.by_id.get(start..start + usize::from(self.members)) {
            Some(row) => row,
            None => &[],
        }
    }

    // Where the row of a round starts.
    fn start_of(&self, round: u32) -> usize
        requires { 1 ≤ round }
        ensures { result < 2 ^ 40 }
    {
        let members = self.members;
        (round - 1) as usize * usize::from(members)
    }
}

// The entry for a number; 0 where it is too great for one.
fn entry_of(number: usize) -> u32 {
    match u32::try_from(number) {
        Ok(number) => number.checked_add(1).unwrap_or(0),
        Err(_) => 0,
    }
}

/// The number of an entry.
pub(crate) fn likely(entries: &[u32], at: usize) -> Option<usize> {
    match entries.get(at) {
        Some(entry) => (*entry as usize).checked_sub(1),
        None => None,
    }
}

/// The index of the first entry at or past this one whose id is not before the given one.
pub(crate) fn skip(slots: &[Slot], row: &[u32], from: usize, id: &Digest32) -> usize {
    let key = key_of(id);
    for at in from..row.len() {
        if !is_before(slots, row[at], key) {
            return at;
        }
    }
    row.len()
}

// Whether an entry's id starts with smaller bytes. The end of a row is before no id.
fn is_before(slots: &[Slot], entry: u32, key: u64) -> bool {
    match (entry as usize).checked_sub(1) {
        Some(number) => match slots.get(number) {
            Some(slot) => key_of(&slot.id) < key,
            None => false,
        },
        None => false,
    }
}

// The first 8 bytes of an id, in their order. Where two ids share them, they are compared whole.
fn key_of(id: &Digest32) -> u64 {
    let b = id.as_bytes();
    u64::from_be_bytes([b[0], b[1], b[2], b[3], b[4], b[5], b[6], b[7]])
}

/// Whether a number is that of the id.
pub(crate) fn has_id(slots: &[Slot], number: usize, id: &Digest32) -> bool
    ensures { IsTrue result → (number < length slots.now) × (id_of slots.now number ≡ id.now) }
{
    if number >= slots.len() {
        return false;
    }
    slots[number].id == *id
}

// Puts an entry at this index, and those from there on one further, up to the first 0.
fn insert(row: &mut [u32], at: usize, entry: u32) {
    let mut moved = entry;
    for i in at..row.len() {
        let next = row[i];
        row[i] = moved;
        if next == 0 {
            return;
        }
        moved = next;
    }
}
