//! An entry of a statement, and its line.

ghost use Rattle.std.specs.Prelude.{Some};
ghost use Rattle.bk_views.specs.Statement.{account_text, change_text, entry_text, role_word};

use bk_rules::{Account, Status};
use std::fmt;

/// The part that an account plays in a transaction. `Display` is its word.
#[derive(Clone, Copy, Debug, PartialEq, Eq)]
pub enum Role {
    /// It is the sender.
    Out,
    /// It is a receiver.
    In,
    /// It is the guard, and no receiver.
    Guard,
}

/// A transaction in which an account plays a part. `Display` is its line, `tx PLACE STATUS ROLE AMOUNT BALANCE SEQ`, or
/// `absent` in place of the last two.
#[derive(Clone, Copy, Debug, PartialEq, Eq)]
pub struct Entry {
    /// The place of the transaction.
    pub place: usize,
    /// What became of it.
    pub status: Status,
    /// The part that the account plays.
    pub role: Role,
    /// What the sender moved or the receiver was credited, 0 for the guard.
    pub amount: u64,
    /// The account after the transaction, `None` where it is absent.
    pub after: Option<Account>,
}

// Balance and sequence number in a line, each after a space.
#[derive(Clone, Copy)]
pub(crate) struct Numbers {
    pub account: Option<Account>,
}

impl fmt::Display for Numbers {
    ghost output = { λ n. Some (account_text n.account) };

    fn fmt<W: fmt::Write>(&self, f: &mut fmt::Formatter<W>) -> fmt::Result {
        match self.account {
            Some(account) => {
                let Account { balance, seq } = account;
                write!(f, " {balance} {seq}")
            }
            None => write!(f, " absent"),
        }
    }
}

// The second half of an entry's line.
#[derive(Clone, Copy)]
struct Change {
    role: Role,
    amount: u64,
    after: Numbers,
}

impl fmt::Display for Change {
    ghost output = { λ c. Some (change_text c.role c.amount c.after.account) };

    fn fmt<W: fmt::Write>(&self, f: &mut fmt::Formatter<W>) -> fmt::Result {
        let Change {
            role,
            amount,
            after,
        } = *self;
        write!(f, "{role} {amount}{after}")
    }
}

impl fmt::Display for Entry {
    ghost output = { λ e. Some (entry_text e) };

    fn fmt<W: fmt::Write>(&self, f: &mut fmt::Formatter<W>) -> fmt::Result {
        let Entry {
            place,
            status,
            role,
            amount,
            after,
        } = *self;
        let number = status.number();
        let after = Numbers { account: after };
        let change = Change {
            role,
            amount,
            after,
        };
        write!(f, "tx {place} {number} {change}")
    }
}

impl fmt::Display for Role {
    ghost output = { λ role. Some (role_word role) };

    fn fmt<W: fmt::Write>(&self, f: &mut fmt::Formatter<W>) -> fmt::Result {
        match *self {
            Role::Out => write!(f, "out"),
            Role::In => write!(f, "in"),
            Role::Guard => write!(f, "guard"),
        }
    }
}
