ghost use Rattle.std.specs.Prelude.{◌≡◌};
ghost use Rattle.bk_frames.specs.Faults.{code_number};

use std::error::Error;
use std::fmt;

/// What is wrong with a feed.
#[derive(Clone, Copy, Debug, PartialEq, Eq)]
pub enum FaultCode {
    /// The feed begins neither with `BKF1` nor with `BKF2`, nor do its bytes, where they are fewer than four, begin one of
    /// the two.
    Magic = 1,
    /// The bytes end too early.
    Truncated = 2,
    /// A frame's kind is not 1 to 4.
    Kind = 3,
    /// A payload is longer than 16,777,216 bytes, or would end past byte 4,294,967,295 of the feed.
    Length = 4,
    /// Frame 0 is not a committee.
    Committee = 5,
    /// Frame 1 is not a genesis.
    Genesis = 6,
    /// A later frame is a committee or a genesis.
    Extra = 7,
    /// The source failed.
    Read = 8,
    /// Memory ran out.
    Memory = 9,
}

impl FaultCode {
    /// The number, as the text of a fault has it.
    pub fn number(self) -> u8
        ensures { result ≡ code_number self }
    {
        self as u8
    }
}

/// The first fault of a feed, and the offset of the frame that has it.
#[derive(Clone, Copy, Debug, PartialEq, Eq)]
pub struct FeedFault {
    /// The offset of the frame's first byte in the feed, 0 for the magic.
    pub offset: u64,
    /// What is wrong there.
    pub code: FaultCode,
}

impl fmt::Display for FeedFault {
    ghost use Rattle.std.specs.Prelude.{Some};
    ghost use Rattle.bk_frames.specs.Faults.{fault_text};

    ghost output = { λ fault. Some (fault_text fault) };

    fn fmt<W: fmt::Write>(&self, f: &mut fmt::Formatter<W>) -> fmt::Result {
        let number = self.code.number();
        let offset = self.offset;
        write!(f, "feed fault {number} at {offset}")
    }
}

impl Error for FeedFault {}
