//! A feed's transactions, executed by a given list of events.

ghost use Rattle.std.specs.Prelude.{◌≡◌, ℕ, List, map, IfOk, OnOk, IfErr};
ghost use Rattle.bk_frames.specs.Device.{CanBeUsed, Works, GaveAll};
ghost use Rattle.bk_base.specs.Feed.{IsFeed, genesis_of};
ghost use Rattle.bk_rules.specs.Fold.{state_after, receipts_of};
ghost use Rattle.bk_steps.specs.Schedule.{IsWholeAmong};
ghost use Rattle.bk_results.specs.declared.fault.Fault.TheVariants as fault;
ghost use Rattle.bk_apply.specs.declared.scheduling.ScheduleStop.TheVariants as stop;
ghost use Rattle.bk_results.specs.Devices.{devices};
ghost use Rattle.bk_tx.specs.Batches.{count_in, payloads_of, feed_transactions};
ghost use Rattle.bk_apply.specs.Answers.{ReportIsOut};
ghost use Rattle.bk_apply.specs.Scheduling.{InExecution, IsWholeFor, StopsBy};
ghost use Rattle.bk_apply.specs.private.Schedules.{stop_of, Unscheduled, IsScheduled};

use crate::applying::write_report;
use bk_conflicts::Plan;
use bk_frames::{Feed, FeedFault, Sink, Source, WriteFault};
use bk_ledger::{Batches, Ledger};
use bk_report::Page;
use bk_results::Fault;
use bk_rules::State;
use bk_steps::{Event, Outcome, ScheduleFault, run_schedule};
use bk_tx::Tx;
use std::alloc::{AllocError, AllocFailed, Global};

/// Why a schedule gives no report.
#[derive(Clone, Copy, Debug, PartialEq, Eq)]
pub enum ScheduleStop {
    /// As without events: the feed has a fault, the sink failed, or memory was refused.
    Fault(Fault),
    /// The events are no whole run: an event is refused, or a place is not done when all were allowed. Nothing is
    /// written. It is never `OutOfMemory`.
    Schedule(ScheduleFault),
}

impl From<ScheduleFault> for ScheduleStop {
    ghost from_gives = { λ f e. e ≡ stop_of f };

    fn from(f: ScheduleFault) -> ScheduleStop {
        match f {
            ScheduleFault::Refused { index, code } => {
                ScheduleStop::Schedule(ScheduleFault::Refused { index, code })
            }
            ScheduleFault::Unfinished(place) => {
                ScheduleStop::Schedule(ScheduleFault::Unfinished(place))
            }
            ScheduleFault::OutOfMemory => ScheduleStop::Fault(Fault::Memory),
        }
    }
}

impl From<FeedFault> for ScheduleStop {
    ghost from_gives = { λ f e. e ≡ stop.Fault (fault.Feed f) };

    fn from(f: FeedFault) -> ScheduleStop {
        ScheduleStop::Fault(Fault::Feed(f))
    }
}

impl From<WriteFault> for ScheduleStop {
    ghost from_gives = { λ w e. e ≡ stop.Fault (fault.Write w.written) };

    fn from(w: WriteFault) -> ScheduleStop {
        let written = w.written;
        ScheduleStop::Fault(Fault::Write { written })
    }
}

impl From<AllocError> for ScheduleStop {
    ghost from_gives = { λ _ e. e ≡ stop.Fault fault.Memory };

    fn from(_e: AllocError) -> ScheduleStop {
        ScheduleStop::Fault(Fault::Memory)
    }
}

impl<T: Drop> From<AllocFailed<T>> for ScheduleStop {
    ghost from_gives = { λ _ e. e ≡ stop.Fault fault.Memory };

    fn from(_e: AllocFailed<T>) -> ScheduleStop {
        ScheduleStop::Fault(Fault::Memory)
    }
}

// Does the events on a feed's transactions.
fn run_events(
    alloc: Global,
    feed: &Feed,
    txs: Vec<Option<Tx>>,
    workers: u32,
    events: &[Event],
) -> Result<Outcome, ScheduleStop>
    requires good { IsFeed feed.now }
    requires txs { txs.items ≡ feed_transactions feed.now.frames }
    ensures scheduled { IfOk result (λ o. IsScheduled feed.now workers events.now o) }
    ensures stop { IfErr result (λ e. Unscheduled feed.now workers events.now e) }
{
    let mut state = State::new(alloc, feed.version(), feed.genesis())?;
    state.prepare(alloc, &txs)?;
    let plan = Plan::make(alloc, state.version(), state.ids(), txs)?;
    // A plan's length also says that its accounts are few.
    let _ = plan.len();
    let outcome = run_schedule(alloc, plan, state, workers, events)?;
    Ok(outcome)
}

// What a feed's batches give by these events.
fn scheduled(
    alloc: Global,
    feed: &Feed,
    workers: u32,
    events: &[Event],
) -> Result<Ledger, ScheduleStop>
    requires good { IsFeed feed.now }
    ensures counts { IfOk result (λ l. l.counts
        ≡ map count_in (payloads_of feed.now.frames)) }
    ensures receipts { IfOk result (λ l. l.receipts
        ≡ receipts_of feed.now.version (feed_transactions feed.now.frames) (genesis_of feed.now.frames)) }
    ensures rows { IfOk result (λ l. l.state.rows
        ≡ state_after feed.now.version (feed_transactions feed.now.frames) (genesis_of feed.now.frames)) }
    ensures whole { IfOk result (λ l. InExecution feed.now
        (λ s. IsWholeAmong s workers events.now)) }
    ensures stop { IfErr result (λ e. Unscheduled feed.now workers events.now e) }
{
    let Batches { counts, txs, .. } = Batches::of(alloc, feed)?;
    let outcome = run_events(alloc, feed, txs, workers, events)?;
    Ok(Ledger::with(counts, outcome))
}

/// Reads a feed, does these events on the transactions of its batches, in feed order, and writes the apply report.
///
/// It is `Ok` exactly where the events are a whole run by this many workers. The faults are those of
/// [`crate::apply`], and `Schedule`, with which nothing is written.
pub fn apply_schedule<S: Source, K: Sink>(
    alloc: Global,
    source: &mut S,
    sink: &mut K,
    workers: u32,
    events: &[Event],
) -> Result<(), ScheduleStop>
    requires source { CanBeUsed (S.state source.old) }
    requires sink { CanBeUsed (K.state sink.old) }
    ensures report { OnOk result (GaveAll (S.state source.old) (S.state source.new) (λ bytes.
        IsWholeFor workers events.now bytes
        × ReportIsOut (K.state sink.old) (K.state sink.new) bytes)) }
    ensures sound { OnOk result (Works (S.state source.old) (S.state source.new)
        × Works (K.state sink.old) (K.state sink.new)) }
    ensures stop { IfErr result (λ e. StopsBy e workers events.now
        (devices (S.state source.old) (K.state sink.old))
        (devices (S.state source.new) (K.state sink.new))) }
{
    let feed = Feed::read(alloc, source)?;
    let ledger = scheduled(alloc, &feed, workers, events)?;
    let summary = ledger.summary(alloc)?;
    let mut page = Page::new(alloc)?;
    write_report(sink, &mut page, &summary)?;
    Ok(())
}
