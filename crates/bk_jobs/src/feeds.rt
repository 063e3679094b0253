//! Jobs that ask one feed.

ghost use Rattle.std.specs.Prelude.{◌≡◌, false, true};
ghost use Rattle.bk_frames.specs.Device.{CanBeUsed};
ghost use Rattle.bk_results.specs.Devices.{devices};
ghost use Rattle.bk_cli.specs.Exits.{exit_at, exit_by_lines};
ghost use Rattle.bk_jobs.specs.Drawn.{drawn_links, window_text};
ghost use Rattle.bk_jobs.specs.Jobs.{ApplyEnds, DiagnosisEnds, FeedEnds, FramesEnd, whole};
ghost use Rattle.bk_jobs.specs.Views.{executes_to_show, view_text};
ghost use Rattle.bk_tables.specs.Tables.{IsBatchTable};

use crate::job_end::{Engine, JobEnd, Terms};
use bk_answer::{Answer, AtOnce, FrameAnswer, Judged, OrderAnswer};
use bk_apply::apply;
use bk_chain::Link;
use bk_cli::{Diagnosis, Exit, JobFault, View, Window};
use bk_diagnosis::{Evidence, Missing, Waiting};
use bk_follow::{answer_by_frames, answer_by_ledger, answer_by_order};
use bk_frames::{Sink, Source};
use bk_picture::{Draw, Links};
use bk_pool::Gate;
use bk_results::Status;
use bk_tables::{Batches, Postings, Transactions};
use std::sync::Wait;
use std::thread::Threads;

/// Writes an answer that needs the batches executed, and whose end says whether a batch is missing.
pub(crate) fn by_ledger<R, G: Gate + Sync, S: Source, O: Sink, A: Answer<End = Status>>(
    rt: &R,
    engine: &Engine<'_, G>,
    source: &mut S,
    out: &mut O,
    answer: &A,
) -> Result<JobEnd, JobFault>
where
    R: Threads + Wait + Sync + AllocGlobal,
    requires ask { A.can_ask answer.now }
    requires source { CanBeUsed (S.state source.old) }
    requires out { CanBeUsed (O.state out.old) }
    ensures { FeedEnds (A.text answer.now) exit_at true engine.now.terms.strict result
        (devices (S.state source.old) (O.state out.old))
        (devices (S.state source.new) (O.state out.new)) }
{
    let asked = Judged {
        answer,
        strict: engine.terms.strict,
        last: true,
    };
    let Engine { gate, .. } = *engine;
    match answer_by_ledger(rt, rt.alloc(), source, out, engine.settings(), gate, &asked) {
        Ok(ended) => Ok(JobEnd::with(Exit::at(ended.end), ended.flaw)),
        Err(fault) => Err(JobFault::Replay(fault)),
    }
}

// The batches of the order, with their numbers of transactions.
fn show_batches<R: Threads + Sync + AllocGlobal, S: Source, O: Sink>(
    rt: &R,
    terms: Terms,
    source: &mut S,
    out: &mut O,
) -> Result<JobEnd, JobFault>
    requires source { CanBeUsed (S.state source.old) }
    requires out { CanBeUsed (O.state out.old) }
    ensures { FeedEnds IsBatchTable exit_at false terms.strict result
        (devices (S.state source.old) (O.state out.old))
        (devices (S.state source.new) (O.state out.new)) }
{
    let asked = Judged {
        answer: &Batches,
        strict: terms.strict,
        last: true,
    };
    match answer_by_order(rt, rt.alloc(), terms.key, source, out, &asked) {
        Ok(ended) => Ok(JobEnd::with(Exit::at(ended.end), ended.flaw)),
        Err(fault) => Err(JobFault::Replay(fault)),
    }
}

/// Writes what is shown of a feed.
pub(crate) fn show<R, G: Gate + Sync, S: Source, O: Sink>(
    rt: &R,
    engine: &Engine<'_, G>,
    shown: View,
    source: &mut S,
    out: &mut O,
) -> Result<JobEnd, JobFault>
where
    R: Threads + Wait + Sync + AllocGlobal,
    requires source { CanBeUsed (S.state source.old) }
    requires out { CanBeUsed (O.state out.old) }
    ensures { FeedEnds (view_text shown) exit_at (executes_to_show shown) engine.now.terms.strict result
        (devices (S.state source.old) (O.state out.old))
        (devices (S.state source.new) (O.state out.new)) }
{
    match shown {
        View::Transactions => {
            let all = Transactions { accounts: None };
            by_ledger(rt, engine, source, out, &all)
        }
        View::Postings => {
            let all = Postings { accounts: None };
            by_ledger(rt, engine, source, out, &all)
        }
        View::Batches => show_batches(rt, engine.terms, source, out),
        View::Link => {
            let link = AtOnce { answer: &Link };
            by_ledger(rt, engine, source, out, &link)
        }
    }
}

// The links of a picture that the command line names.
fn drawn(named: Option<bk_cli::Links>) -> Option<Links>
    ensures { result ≡ drawn_links named }
{
    match named {
        Some(bk_cli::Links::All) => Some(Links::All),
        Some(bk_cli::Links::Votes) => Some(Links::Votes),
        Some(bk_cli::Links::Hidden) => Some(Links::Hidden),
        None => None,
    }
}

/// Writes the picture of the rounds of a window.
pub(crate) fn draw_rounds<R: Threads + Sync + AllocGlobal, S: Source, O: Sink>(
    rt: &R,
    terms: Terms,
    window: Window,
    source: &mut S,
    out: &mut O,
) -> Result<JobEnd, JobFault>
    requires source { CanBeUsed (S.state source.old) }
    requires out { CanBeUsed (O.state out.old) }
    ensures { FeedEnds (window_text window) whole false terms.strict result
        (devices (S.state source.old) (O.state out.old))
        (devices (S.state source.new) (O.state out.new)) }
{
    let draw = Draw {
        from: window.from(),
        count: window.rounds(),
        links: drawn(window.links()),
    };
    let asked = Judged {
        answer: &draw,
        strict: terms.strict,
        last: true,
    };
    match answer_by_order(rt, rt.alloc(), terms.key, source, out, &asked) {
        Ok(ended) => Ok(JobEnd::with(Exit::Whole, ended.flaw)),
        Err(fault) => Err(JobFault::Replay(fault)),
    }
}

// Writes lines that are read off the order, and say what is wrong.
fn lines_by_order<R, S: Source, O: Sink, A: OrderAnswer<End = bool>>(
    rt: &R,
    terms: Terms,
    sought: Diagnosis,
    source: &mut S,
    out: &mut O,
    answer: &A,
) -> Result<JobEnd, JobFault>
where
    R: Threads + Sync + AllocGlobal,
    requires ask { A.can_ask answer.now }
    requires source { CanBeUsed (S.state source.old) }
    requires out { CanBeUsed (O.state out.old) }
    ensures { FeedEnds (A.text answer.now) (exit_by_lines sought) false terms.strict result
        (devices (S.state source.old) (O.state out.old))
        (devices (S.state source.new) (O.state out.new)) }
{
    let asked = Judged {
        answer,
        strict: terms.strict,
        last: true,
    };
    match answer_by_order(rt, rt.alloc(), terms.key, source, out, &asked) {
        Ok(ended) => Ok(JobEnd::with(Exit::by_lines(sought, ended.end), ended.flaw)),
        Err(fault) => Err(JobFault::Replay(fault)),
    }
}

// Writes lines that are read off the frames, and say what is wrong.
fn lines_by_frames<R, S: Source, O: Sink, A: FrameAnswer<End = bool>>(
    rt: &R,
    terms: Terms,
    sought: Diagnosis,
    source: &mut S,
    out: &mut O,
    answer: &A,
) -> Result<JobEnd, JobFault>
where
    R: Threads + Sync + AllocGlobal,
    requires ask { A.can_ask answer.now }
    requires source { CanBeUsed (S.state source.old) }
    requires out { CanBeUsed (O.state out.old) }
    ensures { FramesEnd (A.text answer.now) (exit_by_lines sought) result
        (devices (S.state source.old) (O.state out.old))
        (devices (S.state source.new) (O.state out.new)) }
{
    match answer_by_frames(rt, rt.alloc(), terms.key, source, out, answer) {
        Ok(some) => Ok(JobEnd::with(Exit::by_lines(sought, some), None)),
        Err(fault) => Err(JobFault::Replay(fault)),
    }
}

/// Writes what is wrong with a feed.
pub(crate) fn diagnose<R: Threads + Sync + AllocGlobal, S: Source, O: Sink>(
    rt: &R,
    terms: Terms,
    sought: Diagnosis,
    source: &mut S,
    out: &mut O,
) -> Result<JobEnd, JobFault>
    requires source { CanBeUsed (S.state source.old) }
    requires out { CanBeUsed (O.state out.old) }
    ensures { DiagnosisEnds sought terms.strict result
        (devices (S.state source.old) (O.state out.old))
        (devices (S.state source.new) (O.state out.new)) }
{
    match sought {
        Diagnosis::Waiting => lines_by_order(rt, terms, sought, source, out, &Waiting),
        Diagnosis::Missing => lines_by_order(rt, terms, sought, source, out, &Missing),
        Diagnosis::Evidence => lines_by_frames(rt, terms, sought, source, out, &Evidence),
    }
}

/// Writes the apply report.
pub(crate) fn apply_all<R: AllocGlobal + Threads + Sync, S: Source, O: Sink>(
    rt: &R,
    source: &mut S,
    out: &mut O,
) -> Result<JobEnd, JobFault>
    requires source { CanBeUsed (S.state source.old) }
    requires out { CanBeUsed (O.state out.old) }
    ensures { ApplyEnds result (devices (S.state source.old) (O.state out.old))
        (devices (S.state source.new) (O.state out.new)) }
{
    match apply(rt, rt.alloc(), source, out) {
        Ok(()) => Ok(JobEnd::with(Exit::Whole, None)),
        Err(fault) => Err(JobFault::Replay(fault)),
    }
}
