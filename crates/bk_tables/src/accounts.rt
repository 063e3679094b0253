//! A list of accounts.

ghost use Rattle.std.specs.Prelude.{◌≡◌, ℕ, IsTrue};
ghost use Rattle.bk_base.specs.Numbers.{is_ascending};
ghost use Rattle.bk_tables.specs.Payments.{is_among};

use std::marker::Model;

/// Accounts by ascending id, each once. Contracts see their ids.
#[derive(Drop)]
pub struct Accounts {
    ids: Vec<u64>,
}

impl Model for Accounts {
    ghost use Rattle.std.specs.Prelude.{ℕ, List, IsTrue};
    ghost use Rattle.bk_base.specs.Numbers.{is_ascending};

    ghost Value = { List ℕ };

    ghost view = { λ a. a.ids.items };

    ghost invariant = { λ a. IsTrue (is_ascending a.ids.items) };
}

impl Accounts {
    /// Those of these ids, in any order and repeated or not.
    pub fn of(ids: Vec<u64>) -> Accounts
        ensures same { (id : ℕ) → is_among result id ≡ is_among ids.items id }
        ensures ascending { IsTrue (is_ascending result) }
    {
        let mut ids = ids;
        ids.sort_unstable();
        ids.dedup();
        Accounts { ids }
    }

    /// Whether an account is among them, by a binary search.
    pub fn has(&self, id: u64) -> bool
        ensures { result ≡ is_among self.now id }
    {
        self.ids.binary_search(&id).is_ok()
    }
}
