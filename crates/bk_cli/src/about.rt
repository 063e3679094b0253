//! What a fault is about: one of the files of a job, or its output.

ghost use Rattle.std.specs.Prelude.{◌≡◌, option_map};
ghost use Rattle.bk_cli.specs.Files.{about_of, compare_about, input_name, name_of, reads_beside, replay_about, text_about};

use crate::job::{Job, is_input};
use crate::job_fault::JobFault;
use bk_results::{CompareStop, Differ, Fault, ScriptFault};

/// What a fault is about.
#[derive(Clone, Copy)]
pub(crate) enum FaultSubject {
    /// The first file of the job, or standard input.
    First,
    /// The second.
    Second,
    /// Two feeds together.
    Both,
    /// Standard output.
    Output,
}

// What is wrong where a feed was not replayed.
fn about_replay(fault: &Fault) -> FaultSubject
    ensures { result ≡ replay_about fault.now }
{
    match fault {
        Fault::Write { .. } => FaultSubject::Output,
        _ => FaultSubject::First,
    }
}

// What is wrong where a text was not read or answered.
fn about_text(job: &Job, fault: &ScriptFault) -> FaultSubject
    ensures { result ≡ text_about job.now fault.now }
{
    match (fault, job) {
        (ScriptFault::Write { .. }, _) => FaultSubject::Output,
        (ScriptFault::Read, Job::CheckReport { .. } | Job::Pick { .. } | Job::Follow { .. }) =>
            FaultSubject::Second,
        _ => FaultSubject::First,
    }
}

// What is wrong where two feeds do not agree.
fn about_compare(stop: &CompareStop) -> FaultSubject
    ensures { result ≡ compare_about stop.now }
{
    match stop {
        CompareStop::First(fault) => about_replay(fault),
        CompareStop::Second(_) => FaultSubject::Second,
        CompareStop::Differ(Differ::Collision { .. } | Differ::Twins { .. }) => FaultSubject::Both,
        CompareStop::Differ(_) => FaultSubject::Second,
    }
}

// The name of what is read.
fn input_name(path: Option<&str>) -> &str
    ensures { result.now ≡ input_name (option_map (λ s. s.now) path.entry) }
{
    match path {
        Some(path) if !is_input(path) => path,
        _ => "standard input",
    }
}

impl FaultSubject {
    /// What a fault of a job is about.
    pub(crate) fn of(job: &Job, fault: &JobFault) -> FaultSubject
        ensures { result ≡ about_of job.now fault.now }
    {
        match fault {
            JobFault::Replay(fault) => about_replay(fault),
            JobFault::Text(fault) => about_text(job, fault),
            JobFault::Events(_) | JobFault::Accounts { .. } => FaultSubject::Second,
            JobFault::Compared(stop) => about_compare(stop),
            JobFault::Links { .. }
            | JobFault::AbsentAccount { .. }
            | JobFault::AbsentPlace { .. } => FaultSubject::First,
        }
    }

    /// Its name.
    pub(crate) fn name(self, job: &Job) -> &str
        ensures { result.now ≡ name_of job.now self }
    {
        match self {
            FaultSubject::First => input_name(job.file()),
            FaultSubject::Second => input_name(job.second_file()),
            FaultSubject::Both => "both feeds together",
            FaultSubject::Output => "standard output",
        }
    }
}
