//! What can be wrong with a script, and why no feed was made.

ghost use Rattle.std.specs.Prelude.{◌≡◌};
ghost use Rattle.bk_results.specs.Codes.{code_number};
ghost use Rattle.bk_results.specs.declared.script_fault.ScriptFault.TheVariants as fault;

use bk_frames::{Failed, WriteFault};
use std::alloc::{AllocError, AllocFailed};

/// What is wrong with a line of a script. Of two that apply to one line, the one of the lower number
/// counts.
#[derive(Clone, Copy, Debug, PartialEq, Eq)]
pub enum ScriptCode {
    /// A byte is not ASCII, the first word is unknown, the number of words is wrong, or a word is
    /// empty.
    Word = 1,
    /// The line is out of its place.
    Place = 2,
    /// A word that should be a number, a digest, a list or hexadecimal text is none.
    Number = 3,
    /// A name has a wrong form, is unknown, or is given twice.
    Name = 4,
    /// A value is one that the feed cannot hold, or the script is too long.
    Range = 5,
}

impl ScriptCode {
    /// The number, as the text of a fault has it.
    pub fn number(self) -> u8
        ensures { result ≡ code_number self }
    {
        self as u8
    }
}

/// Why no feed was made.
#[derive(Clone, Copy, Debug, PartialEq, Eq)]
pub enum ScriptFault {
    /// This line, counted from 1, is the first with a fault. Nothing is written.
    Script { line: u64, code: ScriptCode },
    /// The source failed. Nothing is written.
    Read,
    /// The sink failed. Exactly the first `written` bytes of the feed are out.
    Write { written: u64 },
    /// Memory was refused. Nothing is written.
    Memory,
}

impl From<Failed> for ScriptFault {
    ghost from_gives = { λ _ e. e ≡ fault.Read };

    fn from(_e: Failed) -> ScriptFault {
        ScriptFault::Read
    }
}

impl From<WriteFault> for ScriptFault {
    ghost from_gives = { λ w e. e ≡ fault.Write w.written };

    fn from(w: WriteFault) -> ScriptFault {
        let written = w.written;
        ScriptFault::Write { written }
    }
}

impl From<AllocError> for ScriptFault {
    ghost from_gives = { λ _ e. e ≡ fault.Memory };

    fn from(_e: AllocError) -> ScriptFault {
        ScriptFault::Memory
    }
}

impl<T: Drop> From<AllocFailed<T>> for ScriptFault {
    ghost from_gives = { λ _ e. e ≡ fault.Memory };

    fn from(_e: AllocFailed<T>) -> ScriptFault {
        ScriptFault::Memory
    }
}
