//! What the places of an order do to each account, as what a feed answers.

ghost use Rattle.std.specs.Prelude.{◌≡◌, ℕ, List, Some, OnOk, IfOk};
ghost use Rattle.bk_answer.specs.Answers.{IsMadeOf};
ghost use Rattle.bk_answer.specs.Values.{closed_value};
ghost use Rattle.bk_base.specs.Feed.{FeedValue};
ghost use Rattle.bk_report.specs.Pages.{IsReady, desk};
ghost use Rattle.bk_rules.specs.Fold.{HasRoom};
ghost use Rattle.bk_rules.specs.Rows.{IsLedger};
ghost use Rattle.bk_tables.specs.Growing.{AreAfter, HasWalked, IsReadyFor, ShowsFirst};
ghost use Rattle.bk_tables.specs.Kinds.{PutsMore, payloads_in, postings};
ghost use Rattle.bk_tables.specs.Tables.{IsPostingTable};
ghost use Rattle.bk_tables.specs.private.KindLaws.{no_postings, postings_short, postings_table};

use crate::accounts::Accounts;
use crate::sheet::{Sheet, sheet_after};
use crate::table::{TableRows, write_whole};
use crate::walk::{cover, put_batches};
use bk_answer::{Answer, Closed};
use bk_base::{Row, Version};
use bk_frames::{Sink, WriteFault};
use bk_results::{Fault, Status};
use bk_rules::State;
use std::alloc::{AllocError, Global};
use std::marker::Model;
use std::thread::Threads;

// The header, a row.
const HEADER: &[u8] = b"place,status,account,role,amount,balance,seq\n";

// The accounts that are there, or else the opening ones.
fn or_opening(
    alloc: Global,
    state: Option<State>,
    version: Version,
    opening: &[Row],
) -> Result<State, AllocError>
    requires ledger { IsLedger opening.now }
    requires room { HasRoom version 0 opening.now }
    ensures { IfOk result (λ s. (payloads : List (List ℕ)) → AreAfter version opening.now payloads state
        → AreAfter version opening.now payloads (Some s)) }
{
    match state {
        Some(state) => Ok(state),
        None => State::new(alloc, version, opening),
    }
}

/// The table of postings of an order that grows: its header, and the rows of the batches that it has so far. Contracts see
/// the page on which it is put, how many batches and places it shows, and the accounts after these.
#[derive(Drop)]
pub struct PostingRows {
    sheet: Sheet,
    state: Option<State>,
    batch: usize,
    place: usize,
}

impl Model for PostingRows {
    ghost use Rattle.bk_tables.specs.Growing.{Walked};

    ghost Value = { Walked };

    ghost view = { λ r. record {
      shown = record { page = r.sheet.page; batch = r.batch; place = r.place };
      state = r.state;
    } };
}

impl PostingRows {
    // Takes the memory that the rows of the batches need that are not shown yet. It writes nothing. After an error the
    // table is not to be used again.
    fn prepare(&mut self, alloc: Global, closed: &Closed<'_>) -> Result<(), AllocError>
        requires closed { (feed : FeedValue) × IsMadeOf (closed_value closed.now) feed }
        requires walked { HasWalked (closed_value closed.now) self.old }
        ensures same { self.new.shown ≡ self.old.shown }
        ensures ready { OnOk result (IsReadyFor (closed_value closed.now) self.new) }
    {
        let version = closed.ledger.state().version();
        let opening = closed.order.opening;
        let mut state = or_opening(alloc, self.state.take(), version, opening)?;
        cover(alloc, &mut state, closed.order.intake, self.batch)?;
        self.state = Some(state);
        Ok(())
    }

    // Executes the batches that are not shown yet, and writes their rows: those of these accounts, or all of them. The
    // header comes before the first row that is written. After an error the table is not to be used again.
    fn write_more<K: Sink>(
        &mut self,
        sink: &mut K,
        accounts: &Option<Accounts>,
        closed: &Closed<'_>,
    ) -> Result<(), WriteFault>
        requires page { IsReady (desk self.old.shown.page (K.state sink.old)) }
        requires closed { (feed : FeedValue) × IsMadeOf (closed_value closed.now) feed }
        requires shown { ShowsFirst (payloads_in (closed_value closed.now)) self.old.shown }
        requires ready { IsReadyFor (closed_value closed.now) self.old }
        ensures put { PutsMore result (postings accounts.now) (closed_value closed.now)
            self.old.shown self.new.shown (K.state sink.old) (K.state sink.new) }
        ensures walked { HasWalked (closed_value closed.now) self.new }
    {
        let intake = closed.order.intake;
        let counts = closed.ledger.counts();
        let PostingRows {
            sheet,
            state,
            batch,
            place,
        } = self;
        let Some(state) = state else { unreachable!() };
        put_batches(sink, sheet, accounts, state, intake, counts, *batch, *place);
        *batch = counts.len();
        *place = closed.ledger.receipts().len();
        sheet.page.end_rows(sink)
    }
}

impl TableRows for PostingRows {
    ghost kind = { postings };

    ghost shown = { λ r. r.shown };

    ghost holds = { λ r version genesis payloads. AreAfter version genesis payloads r.state };

    fn none(alloc: Global) -> Result<PostingRows, AllocError> {
        Ok(PostingRows {
            sheet: sheet_after(alloc, HEADER)?,
            state: None,
            batch: 0,
            place: 0,
        })
    }

    fn put_more<K: Sink>(
        &mut self,
        alloc: Global,
        sink: &mut K,
        accounts: &Option<Accounts>,
        closed: &Closed<'_>,
    ) -> Result<(), Fault> {
        self.prepare(alloc, closed)?;
        self.write_more(sink, accounts, closed)?;
        Ok(())
    }

    fn put_end<K: Sink>(&mut self, sink: &mut K) -> Result<(), WriteFault> {
        self.sheet.page.end(sink)
    }

    ghost no_rows = { no_postings };

    ghost short = { postings_short };

    ghost is_text = { postings_table };
}

/// The table of what each place of the order does to each account that plays a part in it, as what a feed answers: of
/// all accounts, or of some. It ends with whether a batch is missing.
#[derive(Drop)]
pub struct Postings {
    /// The accounts; `None` for all.
    pub accounts: Option<Accounts>,
}

impl Answer for Postings {
    type End = Status;

    ghost can_ask = { λ _. Unit {0} };

    ghost text = { λ p. IsPostingTable p.accounts };

    fn write<R: Threads + Sync, K: Sink>(
        &self,
        rt: &R,
        alloc: Global,
        closed: &Closed<'_>,
        sink: &mut K,
    ) -> Result<Status, Fault> {
        let _ = rt;
        write_whole::<PostingRows, K>(alloc, sink, &self.accounts, closed)
    }
}
