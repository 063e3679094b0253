//! Accounts, looked up in a list of rows.

ghost use Rattle.std.specs.Prelude.{◌≡◌};
ghost use Rattle.bk_rules.specs.Rule.{balance_of, seq_of};
ghost use Rattle.bk_rules.specs.Rows.{account_at};

use bk_base::Row;
use bk_rules::Account;

/// The account of the first row with this id, if there is one. O(n).
pub fn account_at(rows: &[Row], id: u64) -> Option<Account>
    ensures { result ≡ account_at rows.now id }
{
    rows.iter().find(|row| row.id == id).map(|row| Account {
        balance: row.balance,
        seq: row.seq,
    })
}

// The balance of an account, 0 where there is none.
pub(crate) fn balance_of(account: Option<Account>) -> u64
    ensures { result ≡ balance_of account }
{
    match account {
        None => 0,
        Some(account) => account.balance,
    }
}

// Its sequence number, 0 where there is none.
pub(crate) fn seq_of(account: Option<Account>) -> u64
    ensures { result ≡ seq_of account }
{
    match account {
        None => 0,
        Some(account) => account.seq,
    }
}
