ghost use Rattle.std.specs.Prelude.{◌≡◌, ◌==◌, ◌&&◌, ◌^◌, ◌<◌, ◌≤◌, ℕ, false, [], ◌∷◌, ◌++◌, length, IfSome, IsSome, ◌↔◌, slice_index, slice_index_or};
ghost use Rattle.std.specs.List.{position};
ghost use Rattle.bk_base.specs.Numbers.{is_ascending};
ghost use Rattle.bk_tx.specs.Access.{declared_ids, no_declared, IdsFit};

use std::marker::Model;

/// How many accounts a transaction may declare.
pub const MOST_DECLARED: usize = 8;

/// An account that a transaction declares before it runs.
#[derive(Clone, Copy, Debug, PartialEq, Eq)]
pub struct Declared {
    /// The account's number.
    pub id: u64,
    /// Whether the transaction may change it; else it may only read it.
    pub writable: bool,
}

/// Up to eight declared accounts, of fixed size. Contracts see them as a list.
#[derive(Debug, Drop)]
pub struct Declarations {
    ids: [u64; 8],
    writable: [bool; 8],
    count: usize,
}

impl Model for Declarations {
    ghost use Rattle.std.specs.Prelude.{List, ◌≤◌, take};
    ghost use Rattle.bk_tx.specs.declared.declared.Declared.{Declared};
    ghost use Rattle.bk_tx.specs.private.Paired.{paired};

    ghost Value = { List Declared };

    ghost view = { λ d. take d.count (paired d.ids d.writable) };

    ghost invariant = { λ d. d.count ≤ 8 };
}

impl Declarations {
    /// These accounts, in this order; nothing where they are more than eight.
    pub fn new(entries: &[Declared]) -> Option<Declarations>
        ensures few { IsSome result ↔ (length entries.now ≤ 8) }
        ensures list { IfSome result (λ d. d ≡ entries.now) }
    {
        if entries.len() > MOST_DECLARED {
            return None;
        }
        let mut declared = Declarations::none();
        for entry in entries {
            declared.push(entry.id, entry.writable);
        }
        Some(declared)
    }

    // No accounts.
    pub(crate) fn none() -> Declarations
        ensures { result ≡ [] }
    {
        Declarations {
            ids: [0; 8],
            writable: [false; 8],
            count: 0,
        }
    }

    // Account 0 alone, for reading.
    pub(crate) fn first() -> Declarations
        ensures { result ≡ record { id = 0; writable = false } ∷ [] }
    {
        Declarations {
            ids: [0; 8],
            writable: [false; 8],
            count: 1,
        }
    }

    // Takes all accounts away.
    pub(crate) fn clear(&mut self)
        ensures { self.new ≡ [] }
    {
        self.count = 0;
    }

    // Puts one more account at the end.
    pub(crate) fn push(&mut self, id: u64, writable: bool)
        requires { length self.old < 8 }
        ensures { self.new ≡ self.old ++ record { id = id; writable = writable } ∷ [] }
    {
        self.ids[self.count] = id;
        self.writable[self.count] = writable;
        self.count += 1;
    }

    /// The same accounts again.
    pub fn copy(&self) -> Declarations
        ensures { result ≡ self.now }
    {
        Declarations {
            ids: self.ids,
            writable: self.writable,
            count: self.count,
        }
    }

    /// How many there are.
    pub fn len(&self) -> usize
        ensures len { result ≡ length self.now }
        ensures few { result ≤ 8 }
    {
        self.count
    }

    /// Whether there are none.
    pub fn is_empty(&self) -> bool
        ensures { result ≡ (length self.now == 0) }
    {
        self.count == 0
    }

    /// The account at an index.
    pub fn get(&self, index: usize) -> Declared
        requires { index < length self.now }
        ensures { result ≡ slice_index_or self.now index no_declared }
    {
        prove!(index < self.count);
        Declared {
            id: self.ids[index],
            writable: self.writable[index],
        }
    }

    /// The ids, in their order.
    pub fn ids(&self) -> &[u64]
        ensures all { result.now ≡ declared_ids self.now }
        ensures few { length self.now ≤ 8 }
    {
        &self.ids[..self.count]
    }

    /// The index of an account that is declared for writing.
    pub fn writable_at(&self, id: u64) -> Option<usize>
        ensures { result ≡ position (λ d. d.writable && d.id == id) self.now }
    {
        for k in 0..self.count {
            if self.writable[k] && self.ids[k] == id {
                return Some(k);
            }
        }
        None
    }

    /// The index of an account that is declared, for reading or for writing.
    pub fn declared_at(&self, id: u64) -> Option<usize>
        ensures { result ≡ position (λ d. d.id == id) self.now }
    {
        index_of(self.ids(), id)
    }

    // Whether each id is below the one after it.
    pub(crate) fn is_ascending(&self) -> bool
        ensures test { result ≡ is_ascending (declared_ids self.now) }
        ensures fit { IdsFit self.now }
        ensures few { length self.now ≤ 8 }
    {
        ascends(self.ids())
    }
}

// The index of a number.
fn index_of(ids: &[u64], id: u64) -> Option<usize>
    ensures { result ≡ position (λ x. x == id) ids.now }
{
    ids.iter().position(|x| *x == id)
}

// Whether each number is below the one after it.
fn ascends(ids: &[u64]) -> bool
    ensures test { result ≡ is_ascending ids.now }
    ensures fit { (k : ℕ) → slice_index ids.now k < 2 ^ 64 }
{
    ids.is_sorted_by(|a, b| a < b)
}
