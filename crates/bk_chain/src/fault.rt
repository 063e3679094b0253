//! Why there is no verdict on a chain.

ghost use Rattle.std.specs.Prelude.{◌≡◌};
ghost use Rattle.bk_chain.specs.declared.fault.ChainFault.TheVariants as fault;

use bk_frames::WriteFault;
use std::alloc::{AllocError, AllocFailed};

/// Why there is no verdict on a chain.
#[derive(Clone, Copy, Debug, PartialEq, Eq)]
pub enum ChainFault {
    /// This line, counted from 1, is the first that is not the line of a link, or in which the text passes
    /// [`MOST_LINKS`](crate::MOST_LINKS) bytes. Nothing is written.
    Links { line: u32 },
    /// The source failed. Nothing is written.
    Read,
    /// The sink failed. Exactly the first `written` bytes of the verdict are out.
    Write { written: u64 },
    /// Memory was refused. Nothing is written.
    Memory,
}

impl From<WriteFault> for ChainFault {
    ghost from_gives = { λ w e. e ≡ fault.Write w.written };

    fn from(w: WriteFault) -> ChainFault {
        let written = w.written;
        ChainFault::Write { written }
    }
}

impl From<AllocError> for ChainFault {
    ghost from_gives = { λ _ e. e ≡ fault.Memory };

    fn from(_e: AllocError) -> ChainFault {
        ChainFault::Memory
    }
}

impl<T: Drop> From<AllocFailed<T>> for ChainFault {
    ghost from_gives = { λ _ e. e ≡ fault.Memory };

    fn from(_e: AllocFailed<T>) -> ChainFault {
        ChainFault::Memory
    }
}
