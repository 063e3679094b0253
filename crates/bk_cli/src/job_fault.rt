//! Why a job has no answer.

ghost use Rattle.std.specs.Prelude.{◌≡◌};
ghost use Rattle.bk_cli.specs.declared.job_fault.JobFault.TheVariants as fault;
ghost use Rattle.bk_cli.specs.declared.list_fault.ListFault.TheVariants as list;

use crate::list_fault::ListFault;
use bk_digest::Digest32;
use bk_results::{CompareStop, Fault, LinesFault, ScriptFault};

/// Why a job has no answer. The program prints each as one line on standard error.
#[derive(Clone, Copy)]
pub enum JobFault {
    /// A feed was not replayed, or the answer of a comparison was not written.
    Replay(Fault),
    /// A script has a fault; or a script or a proof was not read, or the answer to it was not written.
    Text(ScriptFault),
    /// A list of events gives no report.
    Events(ListFault),
    /// This line of a list of accounts is none, or ends a list that is too long.
    Accounts {
        line: u32,
    },
    /// This line is not that of a link, or ends a text of links that is too long.
    Links {
        line: u32,
    },
    /// Two feeds do not agree.
    Compared(CompareStop),
    /// The feed has no account of this id. Where its order stops at a missing batch, this is the digest.
    AbsentAccount {
        id: u64,
        missing: Option<Digest32>,
    },
    /// The order of the feed has no transaction at this place. Where it stops at a missing batch, this is the digest.
    AbsentPlace {
        place: u32,
        missing: Option<Digest32>,
    },
}

impl From<Fault> for JobFault {
    ghost from_gives = { λ f e. e ≡ fault.Replay f };

    fn from(f: Fault) -> JobFault {
        JobFault::Replay(f)
    }
}

impl From<ScriptFault> for JobFault {
    ghost from_gives = { λ f e. e ≡ fault.Text f };

    fn from(f: ScriptFault) -> JobFault {
        JobFault::Text(f)
    }
}

impl From<LinesFault> for JobFault {
    ghost from_gives = { λ f e. e ≡ fault.Events (list.Unread f) };

    fn from(f: LinesFault) -> JobFault {
        JobFault::Events(ListFault::Unread(f))
    }
}

impl From<CompareStop> for JobFault {
    ghost from_gives = { λ f e. e ≡ fault.Compared f };

    fn from(f: CompareStop) -> JobFault {
        JobFault::Compared(f)
    }
}
