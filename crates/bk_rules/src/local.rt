//! Up to eight accounts, their numbers side by side.

ghost use Rattle.std.specs.Prelude.{◌≡◌, [], ◌∷◌, ℕ, ◌+◌, ◌^◌, ◌<◌, ◌≤◌, Some, None, IsTrue, is_some, length, slice_set};
ghost use Rattle.bk_rules.specs.Rule.{balance_of, seq_of, sent, received};
ghost use Rattle.bk_rules.specs.View.{nth, nth_or_new};

use crate::account::Account;
use std::marker::Model;

/// Eight accounts, each of which may be absent. Contracts see them as a list.
#[derive(Drop)]
pub struct Local {
    there: [bool; 8],
    balance: [u64; 8],
    seq: [u64; 8],
}

impl Model for Local {
    ghost use Rattle.std.specs.Prelude.{List, Option};
    ghost use Rattle.bk_rules.specs.declared.account.Account.{Account};
    ghost use Rattle.bk_rules.specs.private.Sides.{side_by_side};

    ghost Value = { List (Option Account) };

    ghost view = { λ l. side_by_side l.there l.balance l.seq };
}

impl Local {
    /// Eight absent accounts.
    #[inline(always)]
    pub fn new() -> Local
        ensures { result ≡ None ∷ None ∷ None ∷ None ∷ None ∷ None ∷ None ∷ None ∷ [] }
    {
        Local {
            there: [false; 8],
            balance: [0; 8],
            seq: [0; 8],
        }
    }

    /// Puts an account there.
    #[inline(always)]
    pub fn put(&mut self, k: usize, balance: u64, seq: u64)
        requires { k < 8 }
        ensures { self.new ≡ slice_set self.old k (Some (record { balance = balance; seq = seq })) }
    {
        self.there[k] = true;
        self.balance[k] = balance;
        self.seq[k] = seq;
    }

    /// Puts an account, or none, there.
    #[inline(always)]
    pub fn set(&mut self, k: usize, account: Option<Account>)
        requires { k < 8 }
        ensures after { self.new ≡ slice_set self.old k account }
        ensures wide { length self.old ≡ 8 }
    {
        self.there[k] = account.is_some();
        let numbers = account.unwrap_or(Account { balance: 0, seq: 0 });
        self.balance[k] = numbers.balance;
        self.seq[k] = numbers.seq;
    }

    /// These accounts.
    #[inline(always)]
    pub fn of(view: &[Option<Account>; 8]) -> Local
        ensures { result ≡ view.now }
    {
        let mut local = Local::new();
        for k in 0..8 {
            local.set(k, view[k]);
        }
        local
    }

    /// The account at an index.
    #[inline(always)]
    pub fn account(&self, k: usize) -> Option<Account>
        requires { k < 8 }
        ensures { result ≡ nth self.now k }
    {
        if self.there[k] {
            Some(Account {
                balance: self.balance[k],
                seq: self.seq[k],
            })
        } else {
            None
        }
    }

    // Whether there is an account at an index.
    #[inline(always)]
    pub(crate) fn is_there(&self, k: usize) -> bool
        requires { k < 8 }
        ensures { result ≡ is_some (nth self.now k) }
    {
        self.there[k]
    }

    // The balance at an index, 0 where there is no account.
    #[inline(always)]
    pub(crate) fn balance(&self, k: usize) -> u64
        requires { k < 8 }
        ensures value { result ≡ balance_of (nth self.now k) }
        ensures wide { length self.now ≡ 8 }
    {
        if self.there[k] { self.balance[k] } else { 0 }
    }

    // The sequence number at an index, 0 where there is no account.
    #[inline(always)]
    pub(crate) fn seq(&self, k: usize) -> u64
        requires { k < 8 }
        ensures { result ≡ seq_of (nth self.now k) }
    {
        if self.there[k] { self.seq[k] } else { 0 }
    }

    // The sender pays this much, and its sequence number counts up.
    #[inline(always)]
    pub(crate) fn send(&mut self, k: usize, paid: u64)
        requires place { k < 8 }
        requires funds { paid ≤ balance_of (nth self.old k) }
        requires room { seq_of (nth self.old k) + 1 < 2 ^ 64 }
        ensures after { self.new ≡ slice_set self.old k (Some (sent paid (nth_or_new self.old k))) }
        ensures wide { length self.old ≡ 8 }
    {
        let balance = self.balance(k) - paid;
        let seq = self.seq(k) + 1;
        self.put(k, balance, seq);
    }

    // A receiver gets this much, and comes to be where it is absent.
    #[inline(always)]
    pub(crate) fn receive(&mut self, k: usize, amount: u64)
        requires place { k < 8 }
        requires room { balance_of (nth self.old k) + amount < 2 ^ 64 }
        ensures after { self.new ≡ slice_set self.old k
            (Some (received amount (nth_or_new self.old k))) }
        ensures wide { length self.old ≡ 8 }
    {
        let balance = self.balance(k) + amount;
        let seq = self.seq(k);
        self.put(k, balance, seq);
    }
}
