//! The accounts of a script, by ascending id.

ghost use Rattle.std.specs.Prelude.{◌≡◌, ◌==◌, ◌++◌, [], false, OnOk, OnErr, nat_lt, ◌≤◌, length};
ghost use Rattle.std.specs.BTreeMap.{IsUnchanged};
ghost use Rattle.std.specs.List.{flat_map, insert, list_any, position_or_len};
ghost use Rattle.bk_base.specs.Genesis.{row_text};
ghost use Rattle.bk_script.specs.Judging.{with_account};
ghost use Rattle.bk_script.specs.Answers.{Answers};
ghost use Rattle.bk_script.specs.private.Held.{rows_in};

use crate::fault::{ScriptCode, Stop};
use bk_base::{MOST_ACCOUNTS, Row};
use std::alloc::{AllocError, Global};
use std::collections::BTreeMap;
use std::marker::Model;

// What an account holds.
#[derive(Clone, Copy)]
struct Held {
    balance: u64,
    seq: u64,
}

/// Accounts by ascending id, and what they hold together. Contracts see them as a list.
///
/// One more costs the logarithm of how many there are, in whichever order they come.
#[derive(Drop)]
pub(crate) struct Accounts {
    held: BTreeMap<u64, Held>,
    money: u64,
}

impl Model for Accounts {
    ghost use Rattle.std.specs.Prelude.{◌≡◌, ◌^◌, ◌<◌, ◌≤◌, List, length};
    ghost use Rattle.bk_base.specs.declared.limits.TheConstants.{MOST_ACCOUNTS};
    ghost use Rattle.bk_base.specs.declared.genesis.Row.{Row};
    ghost use Rattle.bk_base.specs.Genesis.{total_of};
    ghost use Rattle.bk_script.specs.private.Held.{rows_in};

    ghost Value = { List Row };

    ghost view = { λ a. rows_in a.held };

    ghost invariant = { λ a. (a.money ≡ total_of (rows_in a.held)) × (a.money < 2 ^ 63)
        × (length (rows_in a.held) ≤ MOST_ACCOUNTS) };
}

// How many accounts there are.
fn count(held: &BTreeMap<u64, Held>) -> usize
    ensures { result ≡ length (rows_in held.now) }
{
    held.len()
}

// Whether there is an account of this id.
fn has(held: &BTreeMap<u64, Held>, id: u64) -> bool
    ensures { result ≡ list_any (λ r. r.id == id) (rows_in held.now) }
{
    held.contains_key(&id)
}

// Puts an account in its place, whose id no other has.
fn put(held: &mut BTreeMap<u64, Held>, row: Row) -> Result<(), AllocError>
    requires { list_any (λ r. r.id == row.id) (rows_in held.old) ≡ false }
    ensures rows { OnOk result (rows_in held.new ≡ insert (rows_in held.old)
        (position_or_len (λ r. nat_lt row.id r.id) (rows_in held.old)) row) }
    ensures err { OnErr result (IsUnchanged held.old held.new) }
{
    let Row { id, balance, seq } = row;
    held.insert(id, Held { balance, seq })?;
    Ok(())
}

// Writes an account at the end.
fn put_row(out: &mut Vec<u8>, row: &Row) -> Result<(), AllocError>
    ensures { OnOk result (out.new.items ≡ out.old.items ++ row_text row.now) }
{
    out.extend_from_slice(&row.id.to_be_bytes())?;
    out.extend_from_slice(&row.balance.to_be_bytes())?;
    out.extend_from_slice(&row.seq.to_be_bytes())?;
    Ok(())
}

impl Accounts {
    /// No accounts.
    pub(crate) fn new(alloc: Global) -> Accounts
        ensures { result ≡ [] }
    {
        Accounts {
            held: BTreeMap::new(alloc),
            money: 0,
        }
    }

    /// Puts one more account in its place, if a genesis can hold it.
    pub(crate) fn insert(&mut self, row: Row) -> Result<(), Stop>
        ensures { Answers (λ _. self.new) result (with_account self.old row) }
    {
        if count(&self.held) >= MOST_ACCOUNTS as usize
            || row.seq >= 1 << 63
            || row.balance >= (1 << 63) - self.money
            || has(&self.held, row.id)
        {
            return Err(Stop::Code(ScriptCode::Range));
        }
        put(&mut self.held, row)?;
        self.money += row.balance;
        Ok(())
    }

    /// How many there are.
    pub(crate) fn len(&self) -> usize
        ensures all { result ≡ length self.now }
        ensures few { result ≤ MOST_ACCOUNTS }
    {
        count(&self.held)
    }

    /// Writes them at the end, by ascending id.
    pub(crate) fn put_rows(&self, out: &mut Vec<u8>) -> Result<(), AllocError>
        ensures { OnOk result (out.new.items ≡ out.old.items ++ flat_map row_text self.now) }
    {
        for (id, held) in &self.held {
            let Held { balance, seq } = *held;
            put_row(
                out,
                &Row {
                    id: *id,
                    balance,
                    seq,
                },
            )?;
        }
        Ok(())
    }
}
