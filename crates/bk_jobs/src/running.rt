//! Runs a job over sources and sinks.

ghost use Rattle.std.specs.Prelude.{◌≡◌, ◌≤◌, ◌+◌};
ghost use Rattle.bk_frames.specs.Device.{CanBeUsed};
ghost use Rattle.bk_jobs.specs.Endings.{IsLast, IsTold, exit_of, flaw_of};
ghost use Rattle.bk_jobs.specs.Openings.{RanSo};
ghost use Rattle.bk_jobs.specs.Sources.{CanBeUsedAgain, job_devices};

use crate::answering::answer;
use crate::job_end::{Engine, JobEnd, Terms};
use crate::machine::workers_of;
use bk_cli::{Exit, Job, JobFault, judge, tell, tell_remarks};
use bk_frames::{Sink, Source};
use bk_order::HashKey;
use bk_progress::Watcher;
use bk_results::Flaw;
use std::sync::Wait;
use std::thread::Threads;
use std::time::Clock;

/// How a job is watched.
#[derive(Drop)]
pub struct Watch<'a, W> {
    /// What its workers call between their steps, and what is called when the job is over.
    pub watcher: &'a W,
    /// Whether a fault is reported in words too, and beside an answer the missing batches at which orders stop, or of
    /// frames a wrong tag.
    pub verbose: bool,
    /// Whether a feed that does not count whole is turned down.
    pub strict: bool,
    /// The key of the tables by digest.
    pub key: HashKey,
}

// Reports what a job came to: what is absent, what there is to remark, where this is verbose, or its fault.
fn say<E: Sink>(job: &Job, verbose: bool, found: &Result<JobEnd, JobFault>, err: &mut E)
    requires err { CanBeUsed (E.state err.old) }
    ensures told { IsTold job.now verbose found.now (E.state err.old) (E.state err.new) }
    ensures few { (E.state err.new).failures ≤ (E.state err.old).failures + 1 }
{
    match found {
        Ok(end) => match &end.absent {
            Some(fault) => tell(job, verbose, fault, err),
            None => {
                if verbose {
                    tell_remarks(job, &end.remarks, err);
                }
            }
        },
        Err(fault) => tell(job, verbose, fault, err),
    }
}

// The exit of what a job came to.
fn exit_by(found: &Result<JobEnd, JobFault>) -> Exit
    ensures { result ≡ exit_of found.now }
{
    match found {
        Ok(end) => end.exit,
        Err(fault) => Exit::after(fault),
    }
}

// What keeps its feed from counting whole.
fn flaw_in(found: &Result<JobEnd, JobFault>) -> Option<Flaw>
    ensures { result ≡ flaw_of found.now }
{
    match found {
        Ok(end) => end.flaw,
        Err(_) => None,
    }
}

// How the job ends at last. Where its feed is judged, what keeps it from counting whole is reported.
fn end_last<E: Sink>(strict: bool, found: &Result<JobEnd, JobFault>, err: &mut E) -> Exit
    requires { CanBeUsed (E.state err.old) }
    ensures { IsLast strict found.now result (E.state err.old) (E.state err.new) }
{
    let end = exit_by(found);
    if strict {
        judge(end, &flaw_in(found), err)
    } else {
        end
    }
}

/// Runs a job, and returns how the program ends.
///
/// The sources are what `Job::file` and `Job::second_file` name; a job of one file does not read the second. `out` is
/// standard output and `err` standard error, whose failures are ignored. What runs is watched.
///
/// - `Whole` and `Missing`: the whole answer is on `out`, and nothing on `err`.
/// - `No`, of a check, of `waiting` or of `evidence`: what is checked is bad, or there are such lines, which is the answer on
///   `out`. Nothing is on `err`.
/// - `No`, of another query: what it asks for is absent, which is one line on `err`. Nothing is on `out`.
/// - `WrongInput` and `Stopped`: the bytes are to blame. The fault is one line on `err`, and nothing is on `out`.
/// - `Failed`: a read, a write or memory failed, or a transaction is not finished. The fault is one line on `err`;
///   after a failed write `out` has the first bytes of the answer, and else nothing.
///
/// Two jobs write while they read: the lines of the frames before a fault, and of a feed that is followed the rows of the
/// pieces before it, are on `out`.
///
/// Where the watch is verbose, the line of a fault has one more after it, which says in words what is wrong and where, with
/// the name of the file; and after the answer to a query or of a comparison a line on `err` names each missing batch at
/// which an order stops. Where it is strict, and the end would be `Whole`, `No` or `Missing`, what keeps a feed from
/// counting whole is one more line, and the end is `Flawed`.
pub fn run_watched<R, W: Watcher + Sync, S1: Source, S2: Source, O: Sink, E: Sink>(
    rt: &R,
    job: &Job,
    watch: &Watch<'_, W>,
    first: &mut S1,
    second: &mut S2,
    out: &mut O,
    err: &mut E,
) -> Exit
where
    R: AllocGlobal + Clock + Threads + Wait + Sync,
    requires first { CanBeUsed (S1.state first.old) }
    requires second { CanBeUsed (S2.state second.old) }
    requires out { CanBeUsed (O.state out.old) }
    requires err { CanBeUsedAgain (E.state err.old) }
    ensures { RanSo job.now watch.now.strict watch.now.verbose result
        (job_devices (S1.state first.old) (S2.state second.old) (O.state out.old))
        (job_devices (S1.state first.new) (S2.state second.new) (O.state out.new))
        (E.state err.old) (E.state err.new) }
{
    let engine = Engine {
        terms: Terms {
            strict: watch.strict,
            key: watch.key,
        },
        workers: workers_of(rt, job),
        gate: watch.watcher,
    };
    let found = answer(rt, job, &engine, first, second, out);
    watch.watcher.ended();
    say(job, watch.verbose, &found, err);
    end_last(watch.strict, &found, err)
}
