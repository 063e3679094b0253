//! Lists of transactions as scripts, whose receipts and accounts were computed by hand.

use anyhow::{Result, bail};
use bk_base::{Row, Version};
use bk_frames::{Counted, Feed};
use bk_pool::Outcome;
use bk_rules::{PackedReceipt, Status};
use bk_script::make;
use std::alloc::Global;

/// An account: its number, what it holds, and its sequence number.
type Account = (u64, u64, u64);

/// What becomes of a transaction, and what it moves.
type Line = (Status, u64);

/// A list of transactions with its opening accounts, as a script of one member, and what they give.
#[derive(Clone, Copy)]
pub(crate) struct Case {
    script: &'static str,
    lines: &'static [Line],
    accounts: &'static [Account],
}

/// Which list.
#[derive(Clone, Copy)]
pub(crate) enum Name {
    /// A payment that is guarded by account 2, and then one that takes the money of account 2.
    GuardThenPayment,
    /// The same the other way round.
    PaymentThenGuard,
    /// Two payments that have no account in common.
    Apart,
    /// Account 5 receives, guards twice, and pays.
    FourConflicts,
    /// A repeated sequence number, an amount that is too great, and bytes that are no transaction.
    StaleFundsSplit,
    /// Account 9 comes to be and pays back; in version One there is none.
    Absent,
    /// A payment of nothing makes account 9 in version Two.
    ZeroAmount,
    /// No transaction.
    Nothing,
}

/// Both versions.
pub(crate) const VERSIONS: &[Version] = &[Version::One, Version::Two];

/// All of them.
pub(crate) const NAMES: &[Name] = &[
    Name::GuardThenPayment,
    Name::PaymentThenGuard,
    Name::Apart,
    Name::FourConflicts,
    Name::StaleFundsSplit,
    Name::Absent,
    Name::ZeroAmount,
    Name::Nothing,
];

// ---- lists

const GUARD_THEN_PAYMENT: Case = Case {
    script: "account 1 100\naccount 2 50\naccount 3 10\nbatch b\npayif 1 3 10 0 2 50\npay 2 1 50 0\n",
    lines: &[(Status::Ok, 10), (Status::Ok, 50)],
    accounts: &[(1, 140, 1), (2, 0, 1), (3, 20, 0)],
};

const PAYMENT_THEN_GUARD: Case = Case {
    script: "account 1 100\naccount 2 50\naccount 3 10\nbatch b\npay 2 1 50 0\npayif 1 3 10 0 2 50\n",
    lines: &[(Status::Ok, 50), (Status::Guard, 0)],
    accounts: &[(1, 150, 1), (2, 0, 1), (3, 10, 0)],
};

const APART: Case = Case {
    script: "account 1 10\naccount 2 10\naccount 3 10\naccount 4 10\nbatch b\npay 1 2 10 0\npay 3 4 10 0\n",
    lines: &[(Status::Ok, 10), (Status::Ok, 10)],
    accounts: &[(1, 0, 1), (2, 20, 0), (3, 0, 1), (4, 20, 0)],
};

const FOUR_CONFLICTS: Case = Case {
    script: "account 1 10\naccount 2 10\naccount 3 10\naccount 4 10\naccount 5 10\naccount 6 10\nbatch b\npay 1 5 1 0\npayif 2 3 1 0 5 0\npayif 4 6 1 0 5 0\npay 5 2 1 0\n",
    lines: &[
        (Status::Ok, 1),
        (Status::Ok, 1),
        (Status::Ok, 1),
        (Status::Ok, 1),
    ],
    accounts: &[
        (1, 9, 1),
        (2, 10, 1),
        (3, 11, 0),
        (4, 9, 1),
        (5, 10, 1),
        (6, 11, 0),
    ],
};

const STALE_FUNDS_SPLIT: Case = Case {
    script: "account 1 100\naccount 2 50\naccount 3 10\nbatch b\npay 1 2 30 0\npay 1 2 30 0\nsplit 1 1 2 18446744073709551615 3 1\nsplit 1 2 2 5 3 7\nraw 00\n",
    lines: &[
        (Status::Ok, 30),
        (Status::Stale, 0),
        (Status::Funds, 0),
        (Status::Ok, 12),
        (Status::Malformed, 0),
    ],
    accounts: &[(1, 58, 3), (2, 85, 0), (3, 17, 0)],
};

// Account 1 pays 9, 9 pays back, and a payment is guarded by 8, which is absent.
const ABSENT: &str = "account 1 100\nbatch b\npay 1 9 30 0\npay 9 1 10 0\npayif 1 9 5 1 8 0\n";

const ABSENT_ONE: Case = Case {
    script: ABSENT,
    lines: &[
        (Status::Unknown, 0),
        (Status::Unknown, 0),
        (Status::Unknown, 0),
    ],
    accounts: &[(1, 100, 0)],
};

const ABSENT_TWO: Case = Case {
    script: ABSENT,
    lines: &[(Status::Ok, 30), (Status::Ok, 10), (Status::Unknown, 0)],
    accounts: &[(1, 80, 1), (9, 20, 1)],
};

const ZERO_AMOUNT_ONE: Case = Case {
    script: "account 1 100\nbatch b\npay 1 9 0 0\n",
    lines: &[(Status::Unknown, 0)],
    accounts: &[(1, 100, 0)],
};

const ZERO_AMOUNT_TWO: Case = Case {
    script: "account 1 100\nbatch b\npay 1 9 200 0\npay 1 9 0 1\n",
    lines: &[(Status::Funds, 0), (Status::Ok, 0)],
    accounts: &[(1, 100, 2), (9, 0, 0)],
};

const NOTHING: Case = Case {
    script: "account 7 3 2\nbatch b\n",
    lines: &[],
    accounts: &[(7, 3, 2)],
};

/// The list in a version.
pub(crate) fn case_of(version: Version, name: Name) -> Case {
    match (name, version) {
        (Name::GuardThenPayment, _) => GUARD_THEN_PAYMENT,
        (Name::PaymentThenGuard, _) => PAYMENT_THEN_GUARD,
        (Name::Apart, _) => APART,
        (Name::FourConflicts, _) => FOUR_CONFLICTS,
        (Name::StaleFundsSplit, _) => STALE_FUNDS_SPLIT,
        (Name::Absent, Version::One) => ABSENT_ONE,
        (Name::Absent, Version::Two) => ABSENT_TWO,
        (Name::ZeroAmount, Version::One) => ZERO_AMOUNT_ONE,
        (Name::ZeroAmount, Version::Two) => ZERO_AMOUNT_TWO,
        (Name::Nothing, _) => NOTHING,
    }
}

// ---- feeds

fn script_of(alloc: Global, version: Version, lines: &str) -> Result<String> {
    let head = match version {
        Version::One => "",
        Version::Two => "version 2\n",
    };
    Ok(format!(in alloc; "{head}members 1\n{lines}")?)
}

fn made(alloc: Global, script: &str) -> Result<Vec<u8>> {
    let mut sink = Counted::new(Vec::new(alloc));
    match make(alloc, &mut Counted::new(script.as_bytes()), &mut sink) {
        Ok(()) => Ok(sink.into_inner()),
        Err(_) => bail!("a script has a fault"),
    }
}

fn read(alloc: Global, bytes: &[u8]) -> Result<Feed> {
    match Feed::read(alloc, &mut Counted::new(bytes)) {
        Ok(feed) => Ok(feed),
        Err(_) => bail!("a bad feed"),
    }
}

/// The feed of a list.
pub(crate) fn feed_of_case(alloc: Global, version: Version, case: &Case) -> Result<Feed> {
    let script = script_of(alloc, version, case.script)?;
    let bytes = made(alloc, &script)?;
    read(alloc, &bytes)
}

/// The feed of the list of this name.
pub(crate) fn feed_named(alloc: Global, version: Version, name: Name) -> Result<Feed> {
    feed_of_case(alloc, version, &case_of(version, name))
}

// ---- outcomes

fn are_receipts(found: &[PackedReceipt], lines: &[Line]) -> bool {
    for (packed, (status, moved)) in found.iter().zip(lines) {
        let receipt = packed.receipt();
        if receipt.status != *status || receipt.moved != *moved {
            return false;
        }
    }
    found.len() == lines.len()
}

fn are_accounts(found: &[Row], accounts: &[Account]) -> bool {
    for (row, (id, balance, seq)) in found.iter().zip(accounts) {
        if row.id != *id || row.balance != *balance || row.seq != *seq {
            return false;
        }
    }
    found.len() == accounts.len()
}

/// Whether the outcome has the receipts and the accounts of a list.
pub(crate) fn gives_case(alloc: Global, outcome: &Outcome, case: &Case) -> Result<bool> {
    let rows = outcome.state.rows(alloc)?;
    Ok(are_receipts(&outcome.receipts, case.lines) && are_accounts(&rows, case.accounts))
}
