//! Lists of accounts: a text of ids, one a line.

ghost use Rattle.std.specs.Prelude.{◌≡◌, IfOk, IfErr};
ghost use Rattle.bk_frames.specs.Device.{CanBeUsed};
ghost use Rattle.bk_tables.specs.Listing.{AreNamed, HasNoAccounts, with_line};

use crate::accounts::Accounts;
use bk_frames::Source;
use bk_results::LinesFault;
use bk_script::{LineList, is_skipped, number, read_list};
use std::alloc::Global;

/// The most bytes that a list of accounts may have.
pub const MOST_LIST: usize = 16_777_216;

// The ids of the lines so far, as they come.
#[derive(Drop)]
struct Ids {
    ids: Vec<u64>,
}

impl LineList for Ids {
    ghost use Rattle.std.specs.Prelude.{List, ℕ};

    ghost Value = { List ℕ };

    ghost value = { λ list. list.ids.items };

    ghost with_line = { with_line };

    fn take_line(
        &mut self,
        _alloc: Global,
        line_number: u32,
        line: &[u8],
    ) -> Result<(), LinesFault> {
        if is_skipped(line) {
            return Ok(());
        }
        match number(line) {
            Ok(id) => {
                self.ids.push(id)?;
                Ok(())
            }
            Err(_) => Err(LinesFault::Line { line: line_number }),
        }
    }
}

/// Reads a list of accounts to its end. O(n log n).
///
/// An id stands on each line, decimal, below 2^64, without leading zeros; lines that are empty or begin with `#` are
/// skipped but counted. Ids come in any order and may be repeated. Of a text of more than [`MOST_LIST`] bytes, one byte
/// more than these is read.
pub fn read_accounts<S: Source>(alloc: Global, source: &mut S) -> Result<Accounts, LinesFault>
    requires { CanBeUsed (S.state source.old) }
    ensures accounts { IfOk result (λ accounts.
        AreNamed (S.state source.old) (S.state source.new) accounts) }
    ensures fault { IfErr result (λ e. HasNoAccounts e (S.state source.old) (S.state source.new)) }
{
    let none = Ids {
        ids: Vec::new(alloc),
    };
    let list = read_list(alloc, source, none, MOST_LIST)?;
    Ok(Accounts::of(list.ids))
}
