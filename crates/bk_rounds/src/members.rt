//! Sets of at most 128 members, a bit for each.

ghost use Rattle.std.specs.Prelude.{◌≡◌, ◌≢◌, ℕ, ◌<◌, ◌≤◌, ◌↔◌, ◌⊎◌, IsTrue, IfSome, IfNone};
ghost use Rattle.bk_rounds.specs.Members.{Has};

use std::marker::Model;

/// A set of members, by their numbers below 128.
#[derive(Clone, Copy)]
pub struct Members {
    bits: u128,
}

impl Model for Members {
    ghost use Rattle.std.specs.Prelude.{ℕ};

    // Contracts ask `Has` of it.
    ghost Value = { ℕ };

    ghost view = { λ s. s.bits };

    ghost inverse = { λ n. record { bits = n } };
}

impl Members {
    /// The set of nobody.
    pub fn none() -> Self
        ensures { (x : ℕ) → Has result x → ⊥ }
    {
        Members { bits: 0 }
    }

    /// Whether the member is in the set.
    pub fn has(self, x: u8) -> bool
        requires { x < 128 }
        ensures { IsTrue result ↔ Has self x }
    {
        (self.bits >> x) & 1 == 1
    }

    /// The set with this member too.
    pub fn with(self, x: u8) -> Self
        requires { x < 128 }
        ensures { (y : ℕ) → Has result y ↔ (Has self y ⊎ (y ≡ x)) }
    {
        Members {
            bits: self.bits | (1 << x),
        }
    }

    /// Who is in one of the two.
    pub fn union(self, other: Self) -> Self
        ensures { (y : ℕ) → Has result y ↔ (Has self y ⊎ Has other y) }
    {
        Members {
            bits: self.bits | other.bits,
        }
    }

    /// Who is in this set and not in the other.
    pub fn without(self, other: Self) -> Self
        ensures { (y : ℕ) → Has result y ↔ (Has self y × (Has other y → ⊥)) }
    {
        Members {
            bits: self.bits & !other.bits,
        }
    }

    /// Whether nobody is in it.
    pub fn is_empty(self) -> bool
        ensures { IsTrue result ↔ ((y : ℕ) → Has self y → ⊥) }
    {
        self.bits == 0
    }

    /// Takes the least member out. The set of nobody stays as it is.
    pub fn pop(&mut self) -> Option<u8>
        ensures some { IfSome result (λ x. (x < 128) × Has self.old x × ((y : ℕ) → Has self.old y
            → x ≤ y)) }
        ensures rest { IfSome result (λ x. (y : ℕ) → Has self.new y ↔ (Has self.old y × (y ≢ x))) }
        ensures fewer { IfSome result (λ x. self.new < self.old) }
        ensures none { IfNone result ((y : ℕ) → Has self.old y → ⊥) }
        ensures same { IfNone result (self.new ≡ self.old) }
    {
        if self.bits == 0 {
            return None;
        }
        let x = self.bits.trailing_zeros();
        self.bits &= !(1u128 << x);
        Some(x as u8)
    }
}
