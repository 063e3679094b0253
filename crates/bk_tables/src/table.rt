//! A table, whichever it is: its rows are written while its order grows, or all at once.

ghost use Rattle.std.specs.Prelude.{◌≡◌, ◌≤◌, ℕ, List, [], length, take, Option, IfOk, IfErr, OnOk};
ghost use Rattle.bk_answer.specs.Answers.{IsMadeOf, WritesAnswer, WritesNot};
ghost use Rattle.bk_answer.specs.Values.{closed_value};
ghost use Rattle.bk_base.specs.Feed.{FeedValue};
ghost use Rattle.bk_base.specs.declared.genesis.Row.{Row};
ghost use Rattle.bk_base.specs.declared.version.Version.{Version};
ghost use Rattle.bk_frames.specs.Device.{CanBeUsed};
ghost use Rattle.bk_report.specs.Pages.{IsReady, Written, desk};
ghost use Rattle.bk_tables.specs.Growing.{Shown, ShowsFirst, none_shown};
ghost use Rattle.bk_tables.specs.Kinds.{AboutAccounts, IsTextOf, MoreIsPut, OfAllPut, TableKind, payloads_in};

use crate::accounts::Accounts;
use bk_answer::Closed;
use bk_frames::{Sink, WriteFault};
use bk_results::{Fault, Status};
use std::alloc::{AllocError, Global};

/// The rows that a table of an order has so far.
pub trait TableRows {
    // Which table it is, of all accounts or of some.
    ghost kind: { Option (List ℕ) → TableKind };

    // How far it is.
    ghost shown: { Self → Shown };

    // What it says of the accounts after the batches that it shows.
    ghost holds: { Self → AboutAccounts };

    /// Before the first row: the header waits.
    fn none(alloc: Global) -> Result<Self, AllocError>
        ensures header { IfOk result (λ r. (ids : Option (List ℕ))
            → shown r ≡ none_shown (kind ids).header) }
        ensures accounts { IfOk result (λ r. (version : Version) (genesis : List Row)
            → holds r version genesis []) };

    /// Writes the rows of the batches that are not shown yet. After an error the table is not to be used again.
    fn put_more<K: Sink>(
        &mut self,
        alloc: Global,
        sink: &mut K,
        accounts: &Option<Accounts>,
        closed: &Closed<'_>,
    ) -> Result<(), Fault>
        requires ready { IsReady (desk (shown self.old).page (K.state sink.old)) }
        requires closed { (feed : FeedValue) × IsMadeOf (closed_value closed.now) feed }
        requires first { ShowsFirst (payloads_in (closed_value closed.now)) (shown self.old) }
        requires before { holds self.old (closed_value closed.now).ledger.state.version
            (closed_value closed.now).order.opening
            (take (shown self.old).batch (payloads_in (closed_value closed.now))) }
        ensures put { MoreIsPut result (kind accounts.now) (closed_value closed.now)
            (shown self.old) (shown self.new) (K.state sink.old) (K.state sink.new) }
        ensures after { OnOk result (holds self.new (closed_value closed.now).ledger.state.version
            (closed_value closed.now).order.opening (payloads_in (closed_value closed.now))) };

    /// Lets all go out that was put, and the header, if it is not out.
    fn put_end<K: Sink>(&mut self, sink: &mut K) -> Result<(), WriteFault>
        requires { IsReady (desk (shown self.old).page (K.state sink.old)) }
        ensures { OfAllPut (desk (shown self.old).page (K.state sink.old))
            (λ start text. Written result start (K.state sink.new) text) };

    // No batch has no row.
    ghost no_rows: { (ids : Option (List ℕ)) (version : Version) (genesis : List Row)
        → (kind ids).rows version genesis [] ≡ [] };

    // The header is short.
    ghost short: { (ids : Option (List ℕ)) → length (kind ids).header ≤ 100 };

    // Header and rows are the table.
    ghost is_text: { (ids : Option (List ℕ)) → IsTextOf (kind ids) };
}

/// Writes the whole table of a feed that was closed. Returns whether a batch is missing.
pub(crate) fn write_whole<T: TableRows + Drop, K: Sink>(
    alloc: Global,
    sink: &mut K,
    accounts: &Option<Accounts>,
    closed: &Closed<'_>,
) -> Result<Status, Fault>
    requires sound { CanBeUsed (K.state sink.old) }
    requires closed { (feed : FeedValue) × IsMadeOf (closed_value closed.now) feed }
    ensures out { IfOk result (λ end. WritesAnswer (IsMadeOf (closed_value closed.now)) (T.kind accounts.now).text end
        (K.state sink.old) (K.state sink.new)) }
    ensures fault { IfErr result (λ f. WritesNot (IsMadeOf (closed_value closed.now)) (T.kind accounts.now).text f
        (K.state sink.old) (K.state sink.new)) }
{
    let mut rows = T::none(alloc)?;
    rows.put_more(alloc, sink, accounts, closed)?;
    rows.put_end(sink)?;
    Ok(closed.order.reach())
}
