//! A list whose entries are found by their keys.

ghost use Rattle.std.specs.Prelude.{◌≡◌, ◌==◌, ◌++◌, ◌∷◌, ◌-◌, ◌↔◌, ℕ, [], None, Some, take, length, map, slice_get, slice_set, IfOk, IfSome, IsSome, IsTrue, OnOk, OnErr, option_map};
ghost use Rattle.std.specs.List.{position};
ghost use Rattle.std.specs.Str.{bytes_eq};
ghost use Rattle.indexmap.specs.IndexMap.{get};
ghost use Rattle.bk_index.specs.Finding.{has_key};

use crate::hash_key::HashKey;
use crate::keyed::Keyed;
use bk_digest::Digest32;
use indexmap::IndexMap;
use std::alloc::{AllocError, Global};
use std::marker::Model;

/// A list whose entries are found by their keys: the first one with a key. Contracts see the list.
///
/// Beside an entry it takes some 50 bytes of the table, and the room of lists that double.
#[derive(Drop)]
pub struct KeyedList<T: Keyed> {
    entries: Vec<T>,
    // The index of the first entry with each key.
    firsts: IndexMap<Digest32, u32, HashKey>,
}

impl<T: Keyed> Model for KeyedList<T> {
    ghost use Rattle.std.specs.Prelude.{List};
    ghost use Rattle.bk_index.specs.private.Firsts.{AreFirsts};

    ghost Value = { List T };

    ghost view = { λ x. x.entries.items };

    ghost invariant = { λ x. AreFirsts T.key_of x.entries.items x.firsts };
}

impl<T: Keyed> KeyedList<T> {
    /// No entry. It takes no memory.
    pub fn new(alloc: Global, key: HashKey) -> KeyedList<T>
        ensures { result ≡ [] }
    {
        KeyedList {
            entries: Vec::new(alloc),
            firsts: IndexMap::with_hasher(alloc, key),
        }
    }

    /// The entries, in their order.
    pub fn as_slice(&self) -> &[T]
        ensures { result.now ≡ self.now }
    {
        self.entries.as_slice()
    }

    /// How many there are.
    pub fn len(&self) -> usize
        ensures { result ≡ length self.now }
    {
        self.entries.len()
    }

    /// Whether there is none.
    pub fn is_empty(&self) -> bool
        ensures { result ≡ (length self.now == 0) }
    {
        self.entries.is_empty()
    }

    /// The index of the first entry with a key, in constant time.
    pub fn get(&self, key: &Digest32) -> Option<usize>
        ensures { result ≡ position (has_key T.key_of key.now) self.now }
    {
        first_in(&self.firsts, key)
    }

    /// The index of the first entry with the same key, and this entry again. `None`: there was none,
    /// and it is the last one now.
    ///
    /// An `Err` comes where memory runs out, or 4,294,967,296 entries are there. None changes then.
    pub fn first_of(&mut self, entry: T) -> Result<Option<(usize, T)>, AllocError>
        ensures found { IfOk result (λ found. option_map (λ f. f.0) found
            ≡ position (has_key T.key_of (T.key_of entry)) self.old) }
        ensures back { IfOk result (λ found. IfSome found (λ f. f.1 ≡ entry)) }
        ensures known { IfOk result (λ found. IsSome found → self.new ≡ self.old) }
        ensures new { IfOk result (λ found. found ≡ None → self.new ≡ self.old ++ entry ∷ []) }
        ensures err { OnErr result (self.new ≡ self.old) }
    {
        if let Some(first) = self.get(entry.key()) {
            return Ok(Some((first, entry)));
        }
        self.enter(entry)?;
        Ok(None)
    }

    // One more entry, with a key that no other one has.
    fn enter(&mut self, entry: T) -> Result<(), AllocError>
        requires { position (has_key T.key_of (T.key_of entry)) self.old ≡ None }
        ensures ok { OnOk result (self.new ≡ self.old ++ entry ∷ []) }
        ensures err { OnErr result (self.new ≡ self.old) }
    {
        let Ok(index) = u32::try_from(self.entries.len()) else {
            return Err(AllocError);
        };
        self.entries.reserve(1)?;
        self.firsts.insert(*entry.key(), index)?;
        self.entries.push_reserved(entry);
        Ok(())
    }

    /// One more entry, whose key another one may have.
    ///
    /// An `Err` comes as by `first_of`. No entry changes then.
    pub fn push(&mut self, entry: T) -> Result<(), AllocError>
        ensures ok { OnOk result (self.new ≡ self.old ++ entry ∷ []) }
        ensures err { OnErr result (self.new ≡ self.old) }
    {
        match self.get(entry.key()) {
            Some(_) => self.entries.push(entry)?,
            None => self.enter(entry)?,
        }
        Ok(())
    }

    /// Puts an entry in the place of one with the same key. It takes no memory.
    pub fn replace(&mut self, index: usize, entry: T)
        requires { slice_get (map T.key_of self.old) index ≡ Some (T.key_of entry) }
        ensures { self.new ≡ slice_set self.old index entry }
    {
        self.entries[index] = entry;
    }

    /// Takes out the last entry, if there is one.
    pub fn drop_last(&mut self)
        ensures { self.new ≡ take (length self.old - 1) self.old }
    {
        let Some(entry) = self.entries.pop() else {
            return;
        };
        if is_first(&self.firsts, entry.key(), self.entries.len()) {
            let _ = self.firsts.swap_remove(entry.key());
        }
    }
}

// The index that a table has for a key.
fn first_in(firsts: &IndexMap<Digest32, u32, HashKey>, key: &Digest32) -> Option<usize>
    ensures { result ≡ get bytes_eq firsts.now key.now }
{
    let first = firsts.get(key)?;
    Some(*first as usize)
}

// Whether it is this index.
fn is_first(firsts: &IndexMap<Digest32, u32, HashKey>, key: &Digest32, index: usize) -> bool
    ensures { IsTrue result ↔ (get bytes_eq firsts.now key.now ≡ Some index) }
{
    match first_in(firsts, key) {
        Some(first) => first == index,
        None => false,
    }
}
