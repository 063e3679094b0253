//! The exit statuses of the program.

ghost use Rattle.std.specs.Prelude.{◌≡◌};
ghost use Rattle.bk_cli.specs.Exits.{exit_number, exit_at, exit_by, exit_by_lines, exit_after, exit_after_replay, exit_after_text, exit_after_list};
ghost use Rattle.bk_cli.specs.Exits.{exit_after_compare, exit_after_differ};

use crate::job_fault::JobFault;
use crate::list_fault::ListFault;
use crate::view::Diagnosis;
use bk_frames::FaultCode;
use bk_results::{CompareStop, Differ, Fault, LinesFault, ScriptFault, Status};

/// How the program ends.
#[derive(Clone, Copy, Debug, PartialEq, Eq)]
pub enum Exit {
    /// The whole answer is written.
    Whole = 0,
    /// The answer is no: the command line names no job, what was asked for is not there, the proof or the digest is bad,
    /// or the report differs.
    No = 1,
    /// The bytes of the input are wrong, or two feeds differ in version, committee or opening accounts.
    WrongInput = 2,
    /// A feed, or two feeds together, are stopped by a collision or an equivocation.
    Stopped = 3,
    /// A read, a write or memory failed, or a worker did not finish.
    Failed = 4,
    /// The report, a statement, or that a digest or a report is good, is written, and the order stops at a missing batch.
    Missing = 5,
    /// What the status would be without `--strict` is 0, 1 or 5, and the feed does not count whole.
    Flawed = 6,
}

impl Exit {
    /// The exit status as a number.
    pub fn number(self) -> u8
        ensures { result ≡ exit_number self }
    {
        self as u8
    }

    /// The exit after a report that goes as far as this.
    pub fn at(status: Status) -> Exit
        ensures { result ≡ exit_at status }
    {
        match status {
            Status::Whole => Exit::Whole,
            Status::Missing => Exit::Missing,
        }
    }

    /// The exit after a verdict on a proof.
    pub fn by(good: bool) -> Exit
        ensures { result ≡ exit_by good }
    {
        if good { Exit::Whole } else { Exit::No }
    }

    /// The exit after a diagnosis, by whether something is wrong.
    pub fn by_lines(sought: Diagnosis, some: bool) -> Exit
        ensures { result ≡ exit_by_lines sought some }
    {
        if !some {
            return Exit::Whole;
        }
        match sought {
            Diagnosis::Waiting | Diagnosis::Evidence => Exit::No,
            Diagnosis::Missing => Exit::Missing,
        }
    }

    /// The exit after a fault.
    pub fn after(fault: &JobFault) -> Exit
        ensures { result ≡ exit_after fault.now }
    {
        match fault {
            JobFault::Replay(fault) => Exit::after_replay(fault),
            JobFault::Text(fault) => Exit::after_text(fault),
            JobFault::Events(fault) => Exit::after_list(fault),
            JobFault::Compared(stop) => Exit::after_compare(stop),
            JobFault::Accounts { .. } | JobFault::Links { .. } => Exit::WrongInput,
            JobFault::AbsentAccount { .. } | JobFault::AbsentPlace { .. } => Exit::No,
        }
    }

    // The exit after a feed that was not replayed.
    fn after_replay(fault: &Fault) -> Exit
        ensures { result ≡ exit_after_replay fault.now }
    {
        match fault {
            Fault::Feed(found) => match found.code {
                FaultCode::Read | FaultCode::Memory => Exit::Failed,
                _ => Exit::WrongInput,
            },
            Fault::Collision { .. } | Fault::Equivocation { .. } => Exit::Stopped,
            Fault::Unfinished { .. } | Fault::Write { .. } | Fault::Memory => Exit::Failed,
        }
    }

    // The exit after a fault of a text.
    fn after_text(fault: &ScriptFault) -> Exit
        ensures { result ≡ exit_after_text fault.now }
    {
        match fault {
            ScriptFault::Script { .. } => Exit::WrongInput,
            ScriptFault::Read | ScriptFault::Write { .. } | ScriptFault::Memory => Exit::Failed,
        }
    }

    // The exit after a list of events that gives no report.
    fn after_list(fault: &ListFault) -> Exit
        ensures { result ≡ exit_after_list fault.now }
    {
        match fault {
            ListFault::Unread(LinesFault::Line { .. }) | ListFault::Refused { .. } => {
                Exit::WrongInput
            }
            ListFault::Unread(LinesFault::Read)
            | ListFault::Unread(LinesFault::Memory)
            | ListFault::Unfinished { .. } => Exit::Failed,
        }
    }

    // The exit after two feeds that do not agree.
    fn after_compare(stop: &CompareStop) -> Exit
        ensures { result ≡ exit_after_compare stop.now }
    {
        match stop {
            CompareStop::First(fault) | CompareStop::Second(fault) => Exit::after_replay(fault),
            CompareStop::Differ(differ) => Exit::after_differ(differ),
        }
    }

    // The exit after two feeds that differ.
    fn after_differ(differ: &Differ) -> Exit
        ensures { result ≡ exit_after_differ differ.now }
    {
        match differ {
            Differ::Setup { .. } => Exit::WrongInput,
            Differ::Collision { .. } | Differ::Twins { .. } => Exit::Stopped,
            Differ::Memory => Exit::Failed,
        }
    }
}
