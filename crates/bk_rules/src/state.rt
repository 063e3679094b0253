ghost use Rattle.std.specs.Prelude.{◌≡◌, ◌==◌, ◌*◌, ◌+◌, ◌^◌, ◌<◌, ◌≤◌, ◌++◌, [], ℕ, true, map, None, Some, IsTrue, IfOk, OnOk, OnErr, length, option_and_then, slice_get, slice_index, slice_set};
ghost use Rattle.std.specs.List.{sum_by, list_all};
ghost use Rattle.std.specs.Option.{option_copied};
ghost use Rattle.bk_base.specs.Numbers.{is_ascending};
ghost use Rattle.bk_base.specs.Genesis.{ids_of, total_of};
ghost use Rattle.bk_tx.specs.Access.{declared_ids};
ghost use Rattle.bk_rules.specs.Rows.{IsLedger, account_at, outcome_of};
ghost use Rattle.bk_rules.specs.Fold.{HasRoom};
ghost use Rattle.bk_rules.specs.View.{nth, nth_id};
ghost use Rattle.bk_rules.specs.Ledger.{ledger_of, after_of, has_slot, is_covered, are_covered, IsPrepared, numbers_of, shown_by, row_before, rows_shown, in_pairs, slot_numbers};
ghost use Rattle.bk_rules.specs.Part.{HaveSlots};
ghost use Rattle.bk_rules.specs.private.Slots.{index_or_len, shown_at, ArePlaces, AreApart, StoredBelow, numbers_in, tidied};

use crate::account::Account;
use crate::ids::Ids;
use crate::local::Local;
use crate::receipt::{Receipt, Status, unmoved};
use crate::rule::settle;
use crate::widen::{missing, moved, wider};
use bk_base::{Row, Version};
use bk_tx::{Declarations, Tx};
use std::alloc::{AllocError, Global};
use std::marker::Model;

/// The accounts of a ledger at one moment. Contracts see them as a `Ledger`: version, ids that have a slot, and rows.
#[derive(Debug, Drop)]
pub struct State {
    pub(crate) version: Version,
    pub(crate) ids: Ids,
    pub(crate) numbers: Vec<Account>,
}

impl Model for State {
    ghost use Rattle.bk_rules.specs.Ledger.{Ledger};
    ghost use Rattle.bk_rules.specs.private.Slots.{shown, AreSlots};

    ghost Value = { Ledger };

    ghost view = { λ s. shown s.version s.ids s.numbers.items };

    ghost invariant = { λ s. AreSlots s.version s.ids s.numbers.items };
}

impl State {
    /// The ledger of these rows, each of which has a slot. O(n).
    pub fn new(alloc: Global, version: Version, rows: &[Row]) -> Result<State, AllocError>
        requires ledger { IsLedger rows.now }
        requires room { HasRoom version 0 rows.now }
        ensures { IfOk result (λ s. s ≡ ledger_of version (ids_of rows.now) rows.now) }
    {
        let ids = ids_in(alloc, rows)?;
        let numbers = numbers_in(alloc, rows)?;
        let ids = Ids::new(alloc, ids)?;
        Ok(State {
            version,
            ids,
            numbers,
        })
    }

    /// The rules that it follows.
    pub fn version(&self) -> Version
        ensures version { result ≡ self.now.version }
        ensures ledger { IsLedger self.now.rows }
        ensures shown { rows_shown self.now.version self.now.slots (slot_numbers self.now)
            ≡ self.now.rows }
        ensures have_slots { HaveSlots self.now.slots self.now.rows }
    {
        let _ = &self.numbers;
        self.version
    }

    /// The ids that have a slot, in ascending order: those of all accounts, and of those that can come to be.
    pub fn ids(&self) -> &Ids
        ensures { result.now ≡ self.now.slots }
    {
        &self.ids
    }

    /// The same as a slice.
    pub fn slots(&self) -> &[u64]
        ensures all { result.now ≡ self.now.slots }
        ensures ascending { IsTrue (is_ascending self.now.slots) }
    {
        self.ids.as_slice()
    }

    /// The account of this id, if it is there: O(1) in most cases, and O(log n) at most.
    pub fn account(&self, id: u64) -> Option<Account>
        ensures { result ≡ account_at self.now.rows id }
    {
        account_in(self.version, &self.numbers, self.ids.index_or_len(id))
    }

    /// All the money there is, O(n). No transaction changes it.
    pub fn total(&self) -> u64
        ensures { result ≡ total_of self.now.rows }
    {
        sum_of_balances(&self.numbers)
    }

    /// All rows, by ascending id: a copy, reserved once. O(n).
    pub fn rows(&self, alloc: Global) -> Result<Vec<Row>, AllocError>
        ensures { IfOk result (λ rows. rows.items ≡ self.now.rows) }
    {
        rows_in(alloc, self.version, self.ids.as_slice(), &self.numbers)
    }

    /// The numbers of each slot's account, in the order of the slots: an absent one has balance 0 and sequence number
    /// 2^64 - 1.
    pub fn numbers(&self) -> &[Account]
        ensures { result.now ≡ slot_numbers self.now }
    {
        &self.numbers
    }

    /// Sets all accounts: slot k has balance `words[2 * k]` and sequence number `words[2 * k + 1]`, which in version
    /// Two is 2^64 - 1 where the account is absent. O(n).
    pub fn set_words(&mut self, words: &[u64])
        requires length { length words.now ≡ 2 * length self.old.slots }
        requires within { total_of (rows_shown self.old.version self.old.slots
            (in_pairs words.now)) < 2 ^ 63 }
        ensures { self.new ≡ ledger_of self.old.version self.old.slots
            (rows_shown self.old.version self.old.slots (in_pairs words.now)) }
    {
        set_all(self.version, &mut self.numbers, words);
    }

    /// Whether each account that the transaction declares has a slot. In version One none is needed.
    pub fn covers(&self, tx: Option<&Tx>) -> bool
        ensures { result ≡ is_covered self.now.version self.now.slots (option_copied tx.entry) }
    {
        match self.version {
            Version::One => true,
            Version::Two => match tx {
                None => true,
                Some(tx) => have_slots(&self.ids, tx.declared()),
            },
        }
    }

    /// Makes a slot for each account that the transactions declare. It changes no account, and where memory runs out
    /// all is as it was. In version One there is nothing to make.
    pub fn prepare(&mut self, alloc: Global, txs: &[Option<Tx>]) -> Result<(), AllocError>
        ensures prepared { OnOk result (IsPrepared txs.now self.old self.new) }
        ensures covers { OnOk result (are_covered self.new.version self.new.slots txs.now ≡ true) }
        ensures unchanged { OnErr result (self.new ≡ self.old) }
    {
        match self.version {
            Version::One => Ok(()),
            Version::Two => {
                let lacking = missing(alloc, &self.ids, txs)?;
                // To make the slots anew costs what all of them cost.
                if lacking.is_empty() {
                    return Ok(());
                }
                let wide = wider(&self.ids, lacking)?;
                let numbers = moved(alloc, &self.ids, &self.numbers, &wide)?;
                let ids = self.ids.grown(alloc, wide)?;
                self.ids = ids;
                self.numbers = numbers;
                Ok(())
            }
        }
    }

    /// Applies a transaction, or `None` for bytes that are none, and says what became of it. It takes no memory.
    ///
    /// The balances that it tests are those before it.
    pub fn apply(&mut self, tx: Option<&Tx>) -> Receipt
        requires covers { is_covered self.old.version self.old.slots (option_copied tx) ≡ true }
        requires room { HasRoom self.old.version 1 self.old.rows }
        ensures receipt { result ≡ (outcome_of self.old.version
            (option_copied tx.entry) self.old.rows).receipt }
        ensures after { self.new ≡ after_of self.old (option_copied tx.entry) }
    {
        self.apply_near(tx, &[])
    }

    // The same, where the declared accounts have the first of these indexes, most likely.
    pub(crate) fn apply_near(&mut self, tx: Option<&Tx>, near: &[u32]) -> Receipt
        requires covers { is_covered self.old.version self.old.slots (option_copied tx) ≡ true }
        requires room { HasRoom self.old.version 1 self.old.rows }
        ensures receipt { result ≡ (outcome_of self.old.version
            (option_copied tx.entry) self.old.rows).receipt }
        ensures after { self.new ≡ after_of self.old (option_copied tx.entry) }
    {
        match tx {
            None => unmoved(Status::Malformed),
            Some(tx) => {
                let mut places = [0; 8];
                find_places(&self.ids, tx.declared(), near, &mut places);
                self.apply_at(tx, &places)
            }
        }
    }

    // Applies a transaction whose declared accounts have these indexes.
    fn apply_at(&mut self, tx: &Tx, places: &[usize; 8]) -> Receipt
        requires places { ArePlaces self.old.slots tx.now.declared places.now }
        requires covers { is_covered self.old.version self.old.slots (Some tx.now) ≡ true }
        requires room { HasRoom self.old.version 1 self.old.rows }
        ensures receipt { result ≡ (outcome_of self.old.version
            (Some tx.now) self.old.rows).receipt }
        ensures after { self.new ≡ after_of self.old (Some tx.now) }
    {
        let declared = tx.declared();
        let mut local = Local::new();
        gather(self.version, &self.numbers, declared, places, &mut local);
        let receipt = settle(self.version, tx, &mut local);
        store(&mut self.numbers, declared, places, &local);
        receipt
    }
}

// The ids of these rows.
fn ids_in(alloc: Global, rows: &[Row]) -> Result<Vec<u64>, AllocError>
    ensures { IfOk result (λ ids. ids.items ≡ ids_of rows.now) }
{
    rows.iter().map(|row| row.id).collect(alloc)
}

// The numbers of these rows.
fn numbers_in(alloc: Global, rows: &[Row]) -> Result<Vec<Account>, AllocError>
    ensures { IfOk result (λ numbers. numbers.items ≡ numbers_in rows.now) }
{
    rows.iter()
        .map(|row| Account {
            balance: row.balance,
            seq: row.seq,
        })
        .collect(alloc)
}

// The account that numbers show.
pub(crate) fn shown(version: Version, numbers: Account) -> Option<Account>
    ensures { result ≡ shown_by version numbers }
{
    match version {
        Version::One => Some(numbers),
        Version::Two => {
            if numbers.seq == u64::MAX {
                None
            } else {
                Some(numbers)
            }
        }
    }
}

// The numbers of an account, or those that mark one as absent.
pub(crate) fn numbers_of(account: Option<Account>) -> Account
    ensures { result ≡ numbers_of account }
{
    account.unwrap_or(Account {
        balance: 0,
        seq: u64::MAX,
    })
}

// The account at an index, none past the end.
fn account_in(version: Version, numbers: &[Account], index: usize) -> Option<Account>
    ensures { result ≡ shown_at version numbers.now index }
{
    shown(version, *numbers.get(index)?)
}

// The sum of all balances.
fn sum_of_balances(numbers: &[Account]) -> u64
    requires { sum_by (λ a. a.balance) numbers.now < 2 ^ 64 }
    ensures { result ≡ sum_by (λ a. a.balance) numbers.now }
{
    numbers.iter().map(|a| a.balance).sum()
}

// The rows that numbers show.
fn rows_in(
    alloc: Global,
    version: Version,
    ids: &[u64],
    numbers: &[Account],
) -> Result<Vec<Row>, AllocError>
    requires { length numbers.now ≡ length ids.now }
    ensures { IfOk result (λ rows. rows.items ≡ rows_shown version ids.now numbers.now) }
{
    let mut rows = Vec::with_capacity(alloc, ids.len())?;
    for k in 0..ids.len() {
        push_row(&mut rows, ids[k], shown(version, numbers[k]))?;
    }
    Ok(rows)
}

// Puts the row of an account at the end, if it is there.
fn push_row(rows: &mut Vec<Row>, id: u64, account: Option<Account>) -> Result<(), AllocError>
    ensures { OnOk result (rows.new.items ≡ rows.old.items ++ row_before id account []) }
{
    match account {
        None => Ok(()),
        Some(Account { balance, seq }) => {
            rows.push(Row { id, balance, seq })?;
            Ok(())
        }
    }
}

// Sets all numbers from words, two each.
fn set_all(version: Version, numbers: &mut [Account], words: &[u64])
    requires { length words.now ≡ 2 * length numbers.old }
    ensures { numbers.new ≡ map (tidied version) (in_pairs words.now) }
{
    for k in 0..numbers.len() {
        let given = Account {
            balance: words[2 * k],
            seq: words[2 * k + 1],
        };
        numbers[k] = numbers_of(shown(version, given));
    }
}

// Whether each of these accounts has a slot.
fn have_slots(ids: &Ids, declared: &Declarations) -> bool
    ensures { result ≡ list_all (λ d. has_slot ids.now d.id) declared.now }
{
    for k in 0..declared.len() {
        if !ids.contains(declared.get(k).id) {
            return false;
        }
    }
    true
}

// Finds the index of each declared account, or the number of ids where it has no slot, by likely ones.
fn find_places(ids: &Ids, declared: &Declarations, near: &[u32], places: &mut [usize; 8])
    ensures { ArePlaces ids.now declared.now places.new }
{
    for k in 0..declared.len() {
        places[k] = ids.index_near(declared.get(k).id, likely_at(near, k));
    }
}

// The likely index of a declared account, or a number that is none.
pub(crate) fn likely_at(near: &[u32], k: usize) -> usize {
    match near.get(k) {
        Some(index) => *index as usize,
        None => usize::MAX,
    }
}

// Puts the declared accounts into a list of none.
fn gather(
    version: Version,
    numbers: &[Account],
    declared: &Declarations,
    places: &[usize; 8],
    local: &mut Local,
)
    requires wide { length local.old ≡ 8 }
    requires none { (k : ℕ) → nth local.old k ≡ None }
    ensures found { (k : ℕ) → k < length declared.now →
        nth local.new k ≡ shown_at version numbers.now (slice_index places.now k) }
    ensures rest { (k : ℕ) → length declared.now ≤ k → nth local.new k ≡ None }
{
    for k in 0..declared.len() {
        let account = account_in(version, numbers, places[k]);
        local.set(k, account);
    }
}

// Puts the accounts that are declared for writing back at their indexes.
fn store(numbers: &mut [Account], declared: &Declarations, places: &[usize; 8], local: &Local)
    requires { AreApart places.now (length declared.now) (length numbers.old) }
    ensures { StoredBelow declared.now places.now local.now numbers.old numbers.new
        (length declared.now) }
{
    for k in 0..declared.len() {
        if declared.get(k).writable {
            put(numbers, places[k], numbers_of(local.account(k)));
        }
    }
}

// Puts numbers at an index, if it is one.
pub(crate) fn put(numbers: &mut [Account], index: usize, account: Account)
    ensures { numbers.new ≡ slice_set numbers.old index account }
{
    if index < numbers.len() {
        numbers[index] = account;
    }
}
