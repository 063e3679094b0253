//! How many threads execute.

ghost use Rattle.std.specs.Prelude.{◌≡◌, ◌≤◌, ◌↔◌, IsSome, IfSome};

use std::marker::Model;

/// How many threads execute the transactions of a run: 1 to 64.
#[derive(Clone, Copy, Debug, PartialEq, Eq)]
pub struct Workers {
    count: u8,
}

impl Model for Workers {
    ghost use Rattle.std.specs.Prelude.{ℕ, ◌≤◌};

    ghost Value = { ℕ };

    ghost view = { λ w. w.count };

    ghost inverse = { λ n. record { count = n } };

    ghost invariant = { λ w. (1 ≤ w.count) × (w.count ≤ 64) };
}

impl Workers {
    /// One thread.
    pub fn one() -> Workers
        ensures { result ≡ 1 }
    {
        Workers { count: 1 }
    }

    /// Two.
    pub fn two() -> Workers
        ensures { result ≡ 2 }
    {
        Workers { count: 2 }
    }

    /// This many threads, `None` where they are not 1 to 64.
    pub fn new(count: u8) -> Option<Workers>
        ensures fit { IsSome result ↔ ((1 ≤ count) × (count ≤ 64)) }
        ensures value { IfSome result (λ workers. workers ≡ count) }
    {
        if count == 0 || count > 64 {
            return None;
        }
        Some(Workers { count })
    }

    /// How many they are.
    pub fn count(self) -> usize
        ensures value { result ≡ self }
        ensures fit { (1 ≤ result) × (result ≤ 64) }
    {
        usize::from(self.count)
    }

    /// The same as a number of another type.
    pub fn number(self) -> u32
        ensures { result ≡ self }
    {
        u32::from(self.count)
    }
}
