ghost use Rattle.std.specs.Prelude.{◌≡◌, ◌==◌, ◌<◌, ◌≤◌, [], ◌∷◌, ◌++◌, length, IfSome, IsSome, ◌↔◌};
ghost use Rattle.std.specs.List.{list_any};
ghost use Rattle.bk_base.specs.Numbers.{is_ascending};
ghost use Rattle.bk_tx.specs.Access.{receivers_in, PaymentsFit};

use std::marker::Model;

/// How many payments a transaction may make.
pub const MOST_PAYMENTS: usize = 6;

/// An amount for a receiver.
#[derive(Clone, Copy, Debug, PartialEq, Eq)]
pub struct Payment {
    /// The receiver.
    pub to: u64,
    /// What it gets.
    pub amount: u64,
}

/// Up to six payments, of fixed size. Contracts see them as a list.
#[derive(Debug, Drop)]
pub struct Payments {
    entries: [Payment; 6],
    count: usize,
}

impl Model for Payments {
    ghost use Rattle.std.specs.Prelude.{List, ◌≤◌, take};
    ghost use Rattle.bk_tx.specs.declared.payments.Payment.{Payment};
    ghost use Rattle.bk_tx.specs.Access.{PaymentsFit};

    ghost Value = { List Payment };

    ghost view = { λ p. take p.count p.entries };

    ghost invariant = { λ p. (p.count ≤ 6) × PaymentsFit (take p.count p.entries) };
}

impl Payments {
    /// These payments, in this order; nothing where they are more than six.
    pub fn new(entries: &[Payment]) -> Option<Payments>
        ensures few { IsSome result ↔ (length entries.now ≤ 6) }
        ensures list { IfSome result (λ p. p ≡ entries.now) }
    {
        if entries.len() > MOST_PAYMENTS {
            return None;
        }
        let mut payments = Payments::none();
        for entry in entries {
            payments.push(entry.to, entry.amount);
        }
        Some(payments)
    }

    // No payments.
    pub(crate) fn none() -> Payments
        ensures { result ≡ [] }
    {
        Payments {
            entries: [Payment { to: 0, amount: 0 }; 6],
            count: 0,
        }
    }

    // Puts one more payment at the end.
    pub(crate) fn push(&mut self, to: u64, amount: u64)
        requires { length self.old < 6 }
        ensures { self.new ≡ self.old ++ record { to = to; amount = amount } ∷ [] }
    {
        self.entries[self.count] = Payment { to, amount };
        self.count += 1;
    }

    /// The same payments again.
    pub fn copy(&self) -> Payments
        ensures { result ≡ self.now }
    {
        Payments {
            entries: self.entries,
            count: self.count,
        }
    }

    /// The payments, in their order.
    pub fn as_slice(&self) -> &[Payment]
        ensures all { result.now ≡ self.now }
        ensures few { length self.now ≤ 6 }
        ensures fit { PaymentsFit self.now }
    {
        &self.entries[..self.count]
    }

    // Whether one of them goes to this account.
    pub(crate) fn pay(&self, id: u64) -> bool
        ensures { result ≡ list_any (λ p. p.to == id) self.now }
    {
        self.as_slice().iter().any(|p| p.to == id)
    }

    // Whether each receiver is below the one after it.
    pub(crate) fn is_ascending(&self) -> bool
        ensures { result ≡ is_ascending (receivers_in self.now) }
    {
        self.as_slice().is_sorted_by(|a, b| a.to < b.to)
    }
}
