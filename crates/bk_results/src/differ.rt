//! What comparing two feeds answers.

ghost use Rattle.std.specs.Prelude.{◌≡◌};
ghost use Rattle.bk_results.specs.declared.differ.Differ.TheVariants as differ;

use bk_digest::Digest32;
use std::alloc::AllocError;

/// How far two feeds have one order, `agree CERTS PLACES`.
#[derive(Clone, Copy, Debug, PartialEq, Eq)]
pub struct Agreed {
    /// How many certificates the shorter order has.
    pub certs: usize,
    /// How many places the shorter list of receipts has.
    pub places: usize,
}

/// In what the setups of two feeds differ: the first of these that is so.
#[derive(Clone, Copy, Debug, PartialEq, Eq)]
pub enum SetupPart {
    /// Not both have their committee and their genesis.
    Absent,
    /// Their versions are not the same.
    Version,
    /// Their committees are not: the number of members, a key or a weight.
    Committee,
    /// Their opening accounts are not.
    Accounts,
}

/// Why two feeds do not agree.
#[derive(Clone, Copy, Debug, PartialEq, Eq)]
pub enum Differ {
    /// Not both have a genesis, or their versions, committees or opening accounts differ.
    Setup {
        part: SetupPart,
    },
    /// The least id of two different headers or digest of two different payloads, over both together.
    Collision {
        id: Digest32,
    },
    /// A member made two headers for one round: the evidence over both together, where no id and no digest collides.
    Twins {
        round: u32,
        author: u8,
        first: Digest32,
        second: Digest32,
    },
    /// Memory was refused.
    Memory,
}

impl From<AllocError> for Differ {
    ghost from_gives = { λ _ d. d ≡ differ.Memory };

    fn from(_e: AllocError) -> Differ {
        Differ::Memory
    }
}
