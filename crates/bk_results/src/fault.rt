ghost use Rattle.std.specs.Prelude.{◌≡◌};
ghost use Rattle.bk_results.specs.declared.fault.Fault.TheVariants as fault;

use bk_digest::Digest32;
use bk_frames::{FeedFault, WriteFault};
use std::alloc::{AllocError, AllocFailed};
use thiserror::Error;

/// Why a replay did not answer. The text of each is the line that the program prints.
///
/// With every fault but `Write` nothing is written. Where a feed is followed, the rows that were final before the fault
/// are out.
#[derive(Clone, Copy, Debug, PartialEq, Eq, Error)]
pub enum Fault {
    /// The feed has this fault, or reading it failed or found no memory.
    #[error("{0}")]
    Feed(FeedFault),
    /// The feed is stopped: this is the least id of two different headers or digest of two different payloads.
    #[error("collision {id}")]
    Collision {
        id: Digest32,
    },
    /// The feed is stopped: a member made two headers for one round, and nothing collides.
    #[error("equivocation {round} {author} {first} {second}")]
    Equivocation {
        round: u32,
        author: u8,
        first: Digest32,
        second: Digest32,
    },
    /// This place of the order was taken and is not done.
    #[error("unfinished {place}")]
    Unfinished {
        place: u32,
    },
    /// The sink failed. Exactly the first `written` bytes of the report are out.
    #[error("write failed")]
    Write {
        written: u64,
    },
    /// Memory was refused.
    #[error("memory")]
    Memory,
}

impl From<FeedFault> for Fault {
    ghost from_gives = { λ f e. e ≡ fault.Feed f };

    fn from(f: FeedFault) -> Fault {
        Fault::Feed(f)
    }
}

impl From<WriteFault> for Fault {
    ghost from_gives = { λ w e. e ≡ fault.Write w.written };

    fn from(w: WriteFault) -> Fault {
        let written = w.written;
        Fault::Write { written }
    }
}

impl From<AllocError> for Fault {
    ghost from_gives = { λ _ e. e ≡ fault.Memory };

    fn from(_e: AllocError) -> Fault {
        Fault::Memory
    }
}

impl<T: Drop> From<AllocFailed<T>> for Fault {
    ghost from_gives = { λ _ e. e ≡ fault.Memory };

    fn from(_e: AllocFailed<T>) -> Fault {
        Fault::Memory
    }
}
