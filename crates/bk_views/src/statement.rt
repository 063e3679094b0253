//! What the transactions of an order do to one account.

ghost use Rattle.std.specs.Prelude.{◌≡◌, ◌+◌, ◌<◌, ◌≤◌, All, Some, None, IfOk, IfSome, OnOk, MatchOption, length, map, slice_get, slice_index_or, string_bytes};
ghost use Rattle.bk_tx.specs.Batch.{IsWithin, cut, cuts};
ghost use Rattle.bk_tx.specs.Batches.{transactions_in};
ghost use Rattle.bk_tx.specs.Reading.{transaction_of};
ghost use Rattle.bk_tx.specs.Spelling.{IsTransaction};
ghost use Rattle.bk_rules.specs.Rows.{account_at};
ghost use Rattle.bk_views.specs.Statement.{Course, IsNowhere, IsStatement, role_in};
ghost use Rattle.bk_views.specs.Told.{AreNext, IsRun, IsToldOf, IsToldTo};
ghost use Rattle.bk_views.specs.private.Accounts.{IsPlaceOf};

use crate::entry::{Entry, Numbers, Role};
use crate::parts::{after_part, amount_of, role_in};
use bk_base::Row;
use bk_rules::{Account, PackedReceipt, Receipt};
use bk_tx::{Slice, Tx, read_batch};
use std::alloc::{AllocError, Global};
use std::fmt::Write;
use std::marker::Model;

/// The statement of an account, which is read batch by batch. Contracts see it as the id, the account now, how many
/// places were read, whether the account was nowhere so far, and the text so far.
///
/// Where memory runs out the value is of no further use.
#[derive(Drop)]
pub struct Statement {
    id: u64,
    account: Option<Account>,
    place: usize,
    is_blank: bool,
    text: String,
}

impl Model for Statement {
    ghost use Rattle.std.specs.Prelude.{string_bytes};
    ghost use Rattle.bk_views.specs.Told.{Told};

    ghost Value = { Told };

    ghost view = { λ s. record {
      id = s.id;
      account = s.account;
      place = s.place;
      is_blank = s.is_blank;
      text = string_bytes s.text;
    } };
}

// The account of an id among these rows.
fn account_in(rows: &[Row], id: u64) -> Option<Account>
    ensures { result ≡ account_at rows.now id }
{
    match rows.iter().find(|row| row.id == id) {
        Some(row) => Some(Account {
            balance: row.balance,
            seq: row.seq,
        }),
        None => None,
    }
}

// The receipt of a place.
fn receipt_at(receipts: &[PackedReceipt], place: usize) -> Receipt
    requires { place < length receipts.now }
    ensures { slice_get receipts.now place ≡ Some result }
{
    receipts[place].receipt()
}

impl Statement {
    /// The statement of the account of this id before the first place. O(opening accounts).
    pub fn open(alloc: Global, id: u64, opening: &[Row]) -> Result<Statement, AllocError>
        ensures id { IfOk result (λ s. s.id ≡ id) }
        ensures place { IfOk result (λ s. s.place ≡ 0) }
        ensures told { IfOk result (λ s. (c : Course) → c.opening ≡ opening.now → IsToldOf c s) }
    {
        let account = account_in(opening, id);
        let numbers = Numbers { account };
        let mut text = String::new(alloc);
        writeln!(text, "opening {id}{numbers}")?;
        Ok(Statement {
            id,
            account,
            place: 0,
            is_blank: account.is_none(),
            text,
        })
    }

    // Adds the entry of the next place, in which the account plays this part.
    fn enter(&mut self, tx: &Tx, receipt: Receipt, role: Role) -> Result<(), AllocError>
        requires sound { IsTransaction tx.now }
        ensures same { OnOk result ((self.new.id ≡ self.old.id)
            × (self.new.place ≡ self.old.place)) }
        ensures told { OnOk result ((c : Course)
            → IsPlaceOf c self.old.place (Some tx.now) receipt
            → role_in tx.now self.old.id ≡ Some role → IsToldOf c self.old
            → IsToldTo c (self.old.place + 1) self.new) }
    {
        let amount = amount_of(tx, receipt, role, self.id);
        let after = after_part(role, receipt.status, amount, self.account);
        let entry = Entry {
            place: self.place,
            status: receipt.status,
            role,
            amount,
            after,
        };
        writeln!(self.text, "{entry}")?;
        self.account = after;
        self.is_blank = false;
        Ok(())
    }

    // Takes the transaction of the next place, if it is well formed, and the account plays a part in it.
    fn take_part(&mut self, tx: Option<Tx>, receipt: Receipt) -> Result<(), AllocError>
        requires sound { IfSome tx IsTransaction }
        ensures same { OnOk result ((self.new.id ≡ self.old.id)
            × (self.new.place ≡ self.old.place)) }
        ensures told { OnOk result ((c : Course) → IsPlaceOf c self.old.place tx receipt
            → IsToldOf c self.old → IsToldTo c (self.old.place + 1) self.new) }
    {
        let Some(tx) = tx else {
            return Ok(());
        };
        match role_in(&tx, self.id) {
            Some(role) => self.enter(&tx, receipt, role),
            None => Ok(()),
        }
    }

    // Takes the transaction of the next place, from where its text lies.
    fn take_one(
        &mut self,
        payload: &[u8],
        slice: Slice,
        receipts: &[PackedReceipt],
    ) -> Result<(), AllocError>
        requires within { IsWithin payload.now slice }
        requires inside { self.old.place < length receipts.now }
        ensures same { OnOk result (self.new.id ≡ self.old.id) }
        ensures place { OnOk result (self.new.place ≡ self.old.place + 1) }
        ensures told { OnOk result ((c : Course) → IsRun c receipts.now
            → self.old.place < length c.txs
            → slice_index_or c.txs self.old.place None ≡ transaction_of (cut payload.now slice)
            → IsToldOf c self.old → IsToldOf c self.new) }
    {
        let receipt = receipt_at(receipts, self.place);
        self.take_part(Tx::decode(slice.of(payload)), receipt)?;
        self.place += 1;
        Ok(())
    }

    // Takes the transactions of a batch, from where its texts lie.
    fn take_all(
        &mut self,
        payload: &[u8],
        slices: &[Slice],
        receipts: &[PackedReceipt],
    ) -> Result<(), AllocError>
        requires within { All (IsWithin payload.now) slices.now }
        requires inside { self.old.place + length slices.now ≤ length receipts.now }
        ensures same { OnOk result (self.new.id ≡ self.old.id) }
        ensures place { OnOk result (self.new.place ≡ self.old.place + length slices.now) }
        ensures told { OnOk result ((c : Course) → IsRun c receipts.now
            → AreNext c self.old.place (map transaction_of (cuts payload.now slices.now))
            → IsToldOf c self.old → IsToldOf c self.new) }
    {
        for slice in slices {
            self.take_one(payload, *slice, receipts)?;
        }
        Ok(())
    }

    /// Takes the next batch. The receipts are those of all places.
    pub fn take(
        &mut self,
        alloc: Global,
        payload: &[u8],
        receipts: &[PackedReceipt],
    ) -> Result<(), AllocError>
        requires inside { self.old.place + length (transactions_in payload.now)
            ≤ length receipts.now }
        ensures same { OnOk result (self.new.id ≡ self.old.id) }
        ensures place { OnOk result
            (self.new.place ≡ self.old.place + length (transactions_in payload.now)) }
        ensures told { OnOk result ((c : Course) → IsRun c receipts.now
            → AreNext c self.old.place (transactions_in payload.now)
            → IsToldOf c self.old → IsToldOf c self.new) }
    {
        let Some(slices) = read_batch(alloc, payload)? else {
            return Ok(());
        };
        self.take_all(payload, &slices, receipts)
    }

    /// The text of the statement, after the last place; `None` where the account is nowhere.
    pub fn close(self) -> Result<Option<String>, AllocError>
        ensures { IfOk result (λ found. (c : Course) → IsToldOf c self → self.place ≡ length c.txs
            → MatchOption found (IsNowhere c self.id)
            (λ text. IsStatement c self.id (string_bytes text))) }
    {
        let Statement {
            id,
            account,
            is_blank,
            mut text,
            ..
        } = self;
        if is_blank && account.is_none() {
            return Ok(None);
        }
        let numbers = Numbers { account };
        writeln!(text, "closing {id}{numbers}")?;
        Ok(Some(text))
    }
}
