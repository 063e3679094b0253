//! Runs a job over its files, which are open.

ghost use Rattle.std.specs.Prelude.{◌≡◌, true, is_some, IfSome};
ghost use Rattle.bk_frames.specs.Device.{CanBeUsed};
ghost use Rattle.bk_jobs.specs.Openings.{RanSo};
ghost use Rattle.bk_jobs.specs.Reads.{first_device, second_device, sight};
ghost use Rattle.bk_jobs.specs.private.Opened.{IsReadOnly, RanReady};
ghost use Rattle.bk_jobs.specs.Sources.{CanBeUsedAgain, job_devices};

use crate::inputs::{Access, Opens};
use crate::opening::taken;
use crate::running::{Watch, run_watched};
use bk_cli::{Exit, Line};
use bk_frames::{Counted, Sink, Source};
use bk_order::HashKey;
use bk_progress::{Metered, Progress};
use std::random::RandomSource;
use std::sync::Wait;
use std::thread::Threads;
use std::time::Clock;

// How a job ended, and what its files were read through.
#[derive(Drop)]
struct Over<S, T> {
    exit: Exit,
    first: S,
    second: T,
}

/// Runs a job over its files, which are ready, and leaves what they were read through.
pub(crate) fn run_ready<N, I, R, P, O: Sink, E: Sink>(
    access: &mut Access<N, N::File, I>,
    rt: &R,
    line: &Line,
    progress: &Progress<'_, P>,
    out: &mut O,
    err: &mut E,
) -> Exit
where
    N: Opens,
    I: Source + Drop,
    R: AllocGlobal + Clock + RandomSource + Threads + Wait + Sync,
    P: Clock + Eprint + Sync,
    requires opened { is_some access.old.first_read ≡ true }
    requires first { IfSome
        (first_device (sight N.holds N.lacks N.File.state I.state) access.old) CanBeUsed }
    requires second { IfSome
        (second_device (sight N.holds N.lacks N.File.state I.state) access.old) CanBeUsed }
    requires out { CanBeUsed (O.state out.old) }
    requires err { CanBeUsedAgain (E.state err.old) }
    ensures kept { IsReadOnly access.old access.new }
    ensures ran { RanReady
        (first_device (sight N.holds N.lacks N.File.state I.state) access.old)
        (first_device (sight N.holds N.lacks N.File.state I.state) access.new)
        (second_device (sight N.holds N.lacks N.File.state I.state) access.old)
        (second_device (sight N.holds N.lacks N.File.state I.state) access.new)
        line.now.job line.now.strict line.now.notes.verbose result
        (O.state out.old) (O.state out.new) (E.state err.old) (E.state err.new) }
{
    let first = taken(&mut access.first_read);
    if let Some(second) = access.second_read.take() {
        let over = run_over(rt, line, progress, first, second, out, err);
        access.first_read = Some(over.first);
        access.second_read = Some(over.second);
        return over.exit;
    }
    let nothing: &[u8] = b"";
    let over = run_over(rt, line, progress, first, Counted::new(nothing), out, err);
    access.first_read = Some(over.first);
    over.exit
}

// Runs a job over what its files are read through.
fn run_over<R, P, S: Source, T: Source, O: Sink, E: Sink>(
    rt: &R,
    line: &Line,
    progress: &Progress<'_, P>,
    first: S,
    second: T,
    out: &mut O,
    err: &mut E,
) -> Over<S, T>
where
    R: AllocGlobal + Clock + RandomSource + Threads + Wait + Sync,
    P: Clock + Eprint + Sync,
    requires first { CanBeUsed (S.state first) }
    requires second { CanBeUsed (T.state second) }
    requires out { CanBeUsed (O.state out.old) }
    requires err { CanBeUsedAgain (E.state err.old) }
    ensures ran { RanSo line.now.job line.now.strict line.now.notes.verbose result.exit
        (job_devices (S.state first) (T.state second) (O.state out.old))
        (job_devices (S.state result.first) (T.state result.second) (O.state out.new))
        (E.state err.old) (E.state err.new) }
{
    let watch = Watch {
        watcher: progress,
        verbose: line.notes.verbose,
        strict: line.strict,
        key: HashKey::new(rt),
    };
    let mut first = Metered::new(first, progress);
    let mut second = Metered::new(second, progress);
    let exit = run_watched(rt, &line.job, &watch, &mut first, &mut second, out, err);
    Over {
        exit,
        first: first.into_inner(),
        second: second.into_inner(),
    }
}
