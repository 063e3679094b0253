//! From the words of the command line to the exit status.

ghost use Rattle.std.specs.Prelude.{◌≡◌, map, None, IfSome};
ghost use Rattle.std.specs.IoError.{error_kind};
ghost use Rattle.bk_frames.specs.Device.{CanBeUsed};
ghost use Rattle.bk_cli.specs.Words.{settled};
ghost use Rattle.bk_jobs.specs.Reads.{IsThere, input_device, sight};
ghost use Rattle.bk_jobs.specs.Sources.{CanBeUsedAgain};
ghost use Rattle.bkreplay.specs.Endings.{EndsWith, RanProgram, RanWords, SaysUnread};

use crate::arguments::Arguments;
use crate::speaker::Speaker;
use bk_cli::{Exit, JobFault, Line, parse_line, report};
use bk_frames::{Sink, Source, push_all};
use bk_jobs::{Access, Opens, open_and_run};
use bk_progress::Display;
use bk_results::Fault;
use std::convert::AsStr;
use std::io;
use std::process::ExitCode;
use std::random::RandomSource;
use std::sync::Wait;
use std::thread::Threads;
use std::time::Clock;

/// What the program has of the system beside its memory, its threads, its words, what it can read and where it answers
/// its words.
#[derive(Drop)]
pub(crate) struct System<'a, P> {
    /// Where it shows how far it is.
    pub(crate) display: Display<'a, P>,
    /// Whether standard input is a terminal.
    pub(crate) typed: bool,
}

/// Reads the words, opens the files and runs the job; returns the status with which the process ends. `access` is left as
/// it is where the words name no job, and else what is in it that the job has no use for; what the files were read through
/// is left there.
pub(crate) fn program<R, W, N, I, P, Q, O: Sink, E: Sink>(
    rt: &R,
    arguments: W,
    system: &System<'_, P>,
    access: &mut Access<N, N::File, I>,
    speaker: &mut Speaker<'_, Q>,
    out: &mut O,
    err: &mut E,
) -> ExitCode
where
    R: AllocGlobal + Clock + RandomSource + Threads + Wait + Sync,
    W: Arguments,
    N: Opens,
    I: Source + Drop,
    P: Clock + Eprint + Sync,
    Q: Print + Eprint,
    requires silent { speaker.old ≡ None }
    requires there { IsThere access.old }
    requires input { IfSome (input_device (sight N.holds N.lacks N.File.state I.state) access.old)
        CanBeUsed }
    requires out { CanBeUsed (O.state out.old) }
    requires err { CanBeUsedAgain (E.state err.old) }
    ensures ran { EndsWith result (λ end. RanProgram (W.gives arguments) (W.lacks arguments)
        (sight N.holds N.lacks N.File.state I.state) access.old access.new speaker.new end
        (O.state out.old) (O.state out.new) (E.state err.old) (E.state err.new)) }
{
    let end = answer_words(arguments, rt, system, access, speaker, out, err);
    ExitCode::from(end.number())
}

// Answers the words, if they can be read.
fn answer_words<R, W, N, I, P, Q, O: Sink, E: Sink>(
    arguments: W,
    rt: &R,
    system: &System<'_, P>,
    access: &mut Access<N, N::File, I>,
    speaker: &mut Speaker<'_, Q>,
    out: &mut O,
    err: &mut E,
) -> Exit
where
    R: AllocGlobal + Clock + RandomSource + Threads + Wait + Sync,
    W: Arguments,
    N: Opens,
    I: Source + Drop,
    P: Clock + Eprint + Sync,
    Q: Print + Eprint,
    requires silent { speaker.old ≡ None }
    requires there { IsThere access.old }
    requires input { IfSome (input_device (sight N.holds N.lacks N.File.state I.state) access.old)
        CanBeUsed }
    requires out { CanBeUsed (O.state out.old) }
    requires err { CanBeUsedAgain (E.state err.old) }
    ensures ran { RanProgram (W.gives arguments) (W.lacks arguments)
        (sight N.holds N.lacks N.File.state I.state) access.old access.new speaker.new result
        (O.state out.old) (O.state out.new) (E.state err.old) (E.state err.new) }
{
    match arguments.words() {
        Ok(words) => run_words(rt, system, words.as_slice(), access, speaker, out, err),
        Err(error) => refuse_words(&error, err),
    }
}

// Says that what is typed is read, where the words ask for words.
fn tell_typed<P: Clock + Eprint>(system: &System<'_, P>, line: &Line) {
    if line.notes.verbose && system.typed && line.job.reads_input() {
        system.display.typed();
    }
}

// Runs the job of the words.
fn run_words<R, N, I, P, Q, S: AsStr, O: Sink, E: Sink>(
    rt: &R,
    system: &System<'_, P>,
    words: &[S],
    access: &mut Access<N, N::File, I>,
    speaker: &mut Speaker<'_, Q>,
    out: &mut O,
    err: &mut E,
) -> Exit
where
    R: AllocGlobal + Clock + RandomSource + Threads + Wait + Sync,
    N: Opens,
    I: Source + Drop,
    P: Clock + Eprint + Sync,
    Q: Print + Eprint,
    requires silent { speaker.old ≡ None }
    requires there { IsThere access.old }
    requires input { IfSome (input_device (sight N.holds N.lacks N.File.state I.state) access.old)
        CanBeUsed }
    requires out { CanBeUsed (O.state out.old) }
    requires err { CanBeUsedAgain (E.state err.old) }
    ensures ran { RanWords (sight N.holds N.lacks N.File.state I.state) access.old access.new
        (settled (map S.text words.now)) speaker.new result
        (O.state out.old) (O.state out.new) (E.state err.old) (E.state err.new) }
{
    match parse_line(rt.alloc(), words) {
        Ok(line) => {
            tell_typed(system, &line);
            let progress = system.display.progress(line.notes.progress);
            open_and_run(access, rt, &line, &progress, out, err)
        }
        Err(error) => speaker.answer(error, err),
    }
}

// Words that could not be read: memory ran out, or a word is not text.
fn refuse_words<E: Sink>(error: &io::Error, err: &mut E) -> Exit
    requires { CanBeUsed (E.state err.old) }
    ensures { SaysUnread (error_kind error.now) result (E.state err.old) (E.state err.new) }
{
    match error.kind() {
        io::ErrorKind::OutOfMemory => {
            report(&JobFault::Replay(Fault::Memory), err);
            Exit::Failed
        }
        _ => {
            // A line that cannot be written is reported nowhere.
            let _ = push_all(err, b"error: a word of the command line is not UTF-8\n");
            Exit::No
        }
    }
}
