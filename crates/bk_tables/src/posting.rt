//! What a place does to an account, as a row.

ghost use Rattle.std.specs.Prelude.{◌≡◌, ◌+◌, ◌≤◌, ◌∷◌, ◌++◌, [], length};
ghost use Rattle.bk_tables.specs.Csv.{row_text};
ghost use Rattle.bk_tables.specs.Postings.{after_fields, posting_fields};
ghost use Rattle.bk_views.specs.Statement.{role_word};

use crate::line::Line;
use bk_rules::Account;
use bk_views::{Entry, Role};

/// What a place does to an account that plays a part in it.
#[derive(Clone, Copy, Debug, PartialEq, Eq)]
pub struct Posting {
    /// The id of the account.
    pub account: u64,
    /// The place as the account's statement shows it.
    pub entry: Entry,
}

// Puts the word of a role and a comma.
fn put_role(line: &mut Line, role: Role)
    requires { length line.old + 6 ≤ 512 }
    ensures text { line.new ≡ line.old ++ (role_word role ++ 44 ∷ []) }
    ensures size { length line.new ≤ length line.old + 6 }
{
    match role {
        Role::Out => line.put(b"out,"),
        Role::In => line.put(b"in,"),
        Role::Guard => line.put(b"guard,"),
    }
}

// Puts the balance and the sequence number of an account, and ends the row.
fn put_after(line: &mut Line, after: Option<Account>)
    requires { length line.old + 42 ≤ 512 }
    ensures text { line.new ≡ line.old ++ row_text (after_fields after) }
    ensures size { length line.new ≤ length line.old + 42 }
{
    match after {
        Some(account) => {
            line.put_number(account.balance, b',');
            line.put_number(account.seq, b'\n');
        }
        None => line.put(b",\n"),
    }
}

/// Makes a row.
pub(crate) fn make_row(line: &mut Line, row: &Posting)
    ensures text { line.new ≡ row_text (posting_fields row.now) }
    ensures size { length line.new ≤ 140 }
{
    let Posting { account, entry } = *row;
    let Entry {
        place,
        status,
        role,
        amount,
        after,
    } = entry;
    line.clear();
    line.put_number(place as u64, b',');
    line.put_number(u64::from(status.number()), b',');
    line.put_number(account, b',');
    put_role(line, role);
    line.put_number(amount, b',');
    put_after(line, after);
}
