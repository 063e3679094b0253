ghost use Rattle.std.specs.Prelude.{◌≡◌};
ghost use Rattle.bk_script.specs.declared.fault.Stop.TheVariants as stop;

pub use bk_results::{ScriptCode, ScriptFault};
use std::alloc::{AllocError, AllocFailed};

/// Why a line was not taken: what is wrong with it, or that memory was refused.
#[derive(Clone, Copy, Debug, PartialEq, Eq)]
pub enum Stop {
    /// The line has this fault.
    Code(ScriptCode),
    Memory,
}

impl From<ScriptCode> for Stop {
    ghost from_gives = { λ c e. e ≡ stop.Code c };

    fn from(code: ScriptCode) -> Stop {
        Stop::Code(code)
    }
}

impl From<AllocError> for Stop {
    ghost from_gives = { λ _ e. e ≡ stop.Memory };

    fn from(_e: AllocError) -> Stop {
        Stop::Memory
    }
}

impl<T: Drop> From<AllocFailed<T>> for Stop {
    ghost from_gives = { λ _ e. e ≡ stop.Memory };

    fn from(_e: AllocFailed<T>) -> Stop {
        Stop::Memory
    }
}
