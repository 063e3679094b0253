ghost use Rattle.std.specs.Prelude.{◌≡◌};
ghost use Rattle.bk_claim.specs.declared.verdict.ClaimStop.TheVariants as stop;
ghost use Rattle.bk_results.specs.declared.fault.Fault.TheVariants as fault;

use bk_frames::{Failed, WriteFault};
use bk_results::Fault;
use std::alloc::{AllocError, AllocFailed};

/// The verdict on what is claimed to be the report of a feed.
#[derive(Clone, Copy)]
pub enum Verdict {
    /// It is the report.
    Good,
    /// It is the report, and the order stops at a missing batch.
    Short,
    /// It is not.
    Differs,
}

/// Why there is no verdict.
#[derive(Clone, Copy)]
pub enum ClaimStop {
    /// The feed has no report, for this reason, and nothing is read of the claim; or memory was refused; or the sink
    /// failed, and exactly the first `written` bytes of the text of the verdict are out. But for the last, nothing is
    /// written.
    Run(Fault),
    /// The feed has a report, and a call of the claim's source failed. Nothing is written.
    Unread,
}

impl From<Fault> for ClaimStop {
    ghost from_gives = { λ f e. e ≡ stop.Run f };

    fn from(f: Fault) -> ClaimStop {
        ClaimStop::Run(f)
    }
}

impl From<Failed> for ClaimStop {
    ghost from_gives = { λ _ e. e ≡ stop.Unread };

    fn from(_e: Failed) -> ClaimStop {
        ClaimStop::Unread
    }
}

impl From<WriteFault> for ClaimStop {
    ghost from_gives = { λ w e. e ≡ stop.Run (fault.Write w.written) };

    fn from(w: WriteFault) -> ClaimStop {
        let written = w.written;
        ClaimStop::Run(Fault::Write { written })
    }
}

impl From<AllocError> for ClaimStop {
    ghost from_gives = { λ _ e. e ≡ stop.Run fault.Memory };

    fn from(_e: AllocError) -> ClaimStop {
        ClaimStop::Run(Fault::Memory)
    }
}

impl<T: Drop> From<AllocFailed<T>> for ClaimStop {
    ghost from_gives = { λ _ e. e ≡ stop.Run fault.Memory };

    fn from(_e: AllocFailed<T>) -> ClaimStop {
        ClaimStop::Run(Fault::Memory)
    }
}
