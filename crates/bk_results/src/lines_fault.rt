//! Why a list of lines was not read.

ghost use Rattle.std.specs.Prelude.{◌≡◌};
ghost use Rattle.bk_results.specs.declared.lines_fault.LinesFault.TheVariants as fault;

use std::alloc::{AllocError, AllocFailed};

/// Why a list of lines, of events or of accounts, was not read.
#[derive(Clone, Copy, Debug, PartialEq, Eq)]
pub enum LinesFault {
    /// This line, counted from 1, is the first that says nothing that the list can have, or in which the text passes its
    /// limit.
    Line { line: u32 },
    /// The source failed.
    Read,
    /// Memory was refused.
    Memory,
}

impl From<AllocError> for LinesFault {
    ghost from_gives = { λ _ e. e ≡ fault.Memory };

    fn from(_e: AllocError) -> LinesFault {
        LinesFault::Memory
    }
}

impl<T: Drop> From<AllocFailed<T>> for LinesFault {
    ghost from_gives = { λ _ e. e ≡ fault.Memory };

    fn from(_e: AllocFailed<T>) -> LinesFault {
        LinesFault::Memory
    }
}
