//! Numbers of places.

ghost use Rattle.std.specs.Prelude.{◌≡◌, ◌≢◌, ◌<◌, ◌+◌, ◌^◌, ℕ, Option, None, not, IfSome, IfOk, IsSome, IsTrue, OnOk, OnErr};
ghost use Rattle.bk_cert.specs.declared.place.CertRef.{CertRef};
ghost use Rattle.bk_index.specs.Places.{number_of, HasNumber, HaveSameNumbers};
ghost use Rattle.bk_index.specs.private.Rows.{entry_of, read_entry};

use bk_cert::CertRef;
use std::alloc::{AllocError, Global};
use std::collections::BTreeMap;

// The rows have at most this many entries for each place.
const ENTRIES_FOR_EACH: usize = 16;

// The places that are counted besides those that are there. With them 128 members have rows for 8
// rounds (64 times 16 entries) before there is any place.
const FREE: usize = 64;

/// A map from places of certificates to numbers, mostly indices into a list. Contracts see which
/// number each place has, by `number_of`.
///
/// A round has a row with an entry of 4 bytes for each member, so a look-up costs one access to
/// memory. A place whose row is not there is in an ordered map: so is one whose round is far above
/// what is held, since rows have at most 16 entries for each place.
#[derive(Drop)]
pub struct PlaceIndex {
    // How many members there are.
    members: u8,
    // How many places have a number. It decides how far the rows go, and changes no result.
    count: usize,
    // The rows from round 1 on: a number plus 1, or 0 where there is none.
    rows: Vec<u32>,
    // The numbers of the other places.
    beyond: BTreeMap<CertRef, usize>,
}

impl PlaceIndex {
    /// No place. It takes no memory. Places of other authors than these many members are found too,
    /// in the ordered map.
    pub fn new(alloc: Global, members: u8) -> PlaceIndex
        ensures { (a : CertRef) → number_of result a ≡ None }
    {
        PlaceIndex {
            members,
            count: 0,
            rows: Vec::new(alloc),
            beyond: BTreeMap::new(alloc),
        }
    }

    /// The number of a place. Mostly constant time, O(log n) at worst.
    pub fn get(&self, place: CertRef) -> Option<usize>
        ensures { result ≡ number_of self.now place }
    {
        let entry = read(&self.rows, entry_of(self.members, place));
        match (entry as usize).checked_sub(1) {
            Some(number) => Some(number),
            None => self.beyond.get(&place).copied(),
        }
    }

    /// The number that a place has. `None`: it had none, and has this one now.
    ///
    /// An `Err` comes where memory runs out, or the number is above 4,294,967,294. No place changes
    /// then.
    pub fn first_of(&mut self, place: CertRef, number: usize) -> Result<Option<usize>, AllocError>
        ensures found { IfOk result (λ found. found ≡ number_of self.old place) }
        ensures known { IfOk result (λ found. IsSome found → self.new ≡ self.old) }
        ensures new { IfOk result (λ found. found ≡ None → HasNumber self.old self.new place number) }
        ensures low { OnOk result (number < 4294967295) }
        ensures err { OnErr result (HaveSameNumbers self.old self.new) }
    {
        let entry = entry_for(number)?;
        if let Some(first) = self.get(place) {
            return Ok(Some(first));
        }
        make_rows(&mut self.rows, entry_of(self.members, place), self.count)?;
        self.enter(place, number, entry)?;
        Ok(None)
    }

    // Gives this number, whose entry this is, to a place.
    fn enter(&mut self, place: CertRef, number: usize, entry: u32) -> Result<(), AllocError>
        requires { entry ≡ number + 1 }
        ensures ok { OnOk result (HasNumber self.old self.new place number) }
        ensures err { OnErr result (HaveSameNumbers self.old self.new) }
    {
        self.count = self.count.saturating_add(1);
        if write(&mut self.rows, entry_of(self.members, place), entry) {
            return Ok(());
        }
        self.beyond.insert(place, number)?;
        Ok(())
    }

    /// Gives another number to a place that has one. It takes no memory.
    pub fn set(&mut self, place: CertRef, number: usize)
        requires known { IsSome (number_of self.old place) }
        requires low { number < 4294967295 }
        ensures { HasNumber self.old self.new place number }
    {
        let at = entry_of(self.members, place);
        if read(&self.rows, at) != 0 {
            let _ = write(&mut self.rows, at, number as u32 + 1);
        } else if let Some(kept) = self.beyond.get_mut(&place) {
            *kept = number;
        }
    }
}

// The entry for a number.
fn entry_for(number: usize) -> Result<u32, AllocError>
    ensures { IfOk result (λ entry. entry ≡ number + 1) }
{
    match u32::try_from(number.saturating_add(1)) {
        Ok(entry) => Ok(entry),
        Err(_) => Err(AllocError),
    }
}

// Where the entry of a place would be.
fn entry_of(members: u8, place: CertRef) -> Option<usize>
    ensures is { result ≡ entry_of members place }
    ensures low { IfSome result (λ at. at < 2 ^ 41) }
{
    if place.round == 0 || place.author >= members {
        return None;
    }
    let start = (place.round - 1) as usize * usize::from(members);
    Some(start + usize::from(place.author))
}

// What is there, or 0.
fn read(rows: &[u32], at: Option<usize>) -> u32
    ensures { result ≡ read_entry rows.now at }
{
    match at {
        Some(at) => match rows.get(at) {
            Some(entry) => *entry,
            None => 0,
        },
        None => 0,
    }
}

// Writes an entry, where its row is there.
fn write(rows: &mut Vec<u32>, at: Option<usize>, entry: u32) -> bool
    ensures here { IsTrue result → read_entry rows.new.items at ≡ entry }
    ensures others { (j : Option ℕ) → j ≢ at → read_entry rows.new.items j ≡ read_entry rows.old.items j }
    ensures none { IsTrue (not result) → rows.new.items ≡ rows.old.items }
    ensures free { IsTrue (not result) → read_entry rows.old.items at ≡ 0 }
{
    let Some(at) = at else {
        return false;
    };
    if at >= rows.len() {
        return false;
    }
    rows[at] = entry;
    true
}

// Makes the rows as far as this entry, unless they would have more than 16 entries for each place.
fn make_rows(rows: &mut Vec<u32>, at: Option<usize>, count: usize) -> Result<(), AllocError>
    requires { IfSome at (λ at. at < 2 ^ 41) }
    ensures { (j : Option ℕ) → read_entry rows.new.items j ≡ read_entry rows.old.items j }
{
    let Some(at) = at else {
        return Ok(());
    };
    if at < rows.len() || at / ENTRIES_FOR_EACH > count.saturating_add(FREE) {
        return Ok(());
    }
    rows.resize(at + 1, 0)
}
