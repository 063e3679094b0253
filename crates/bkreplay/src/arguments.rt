//! Where the words of the command line come from.

ghost use Rattle.std.specs.Prelude.{ℕ, List, map, IfErr, IfOk};
ghost use Rattle.std.specs.IoError.{error_kind};
ghost use Rattle.std.specs.declared.io.ErrorKind.{ErrorKind};

use std::convert::AsStr;
use std::rt::Env;
use std::{env, io};

/// What gives the program its words, once.
pub(crate) trait Arguments {
    /// One word.
    type Word: AsStr + Drop;

    /// These are the words; the first is the name of the program.
    ghost gives: { Self → List (List ℕ) → Type 0 };

    /// They cannot be read, which is an error of this kind.
    ghost lacks: { Self → ErrorKind → Type 0 };

    /// Reads the words. That takes what gives them, so they are read once.
    fn words(self) -> io::Result<Vec<Self::Word>>
        ensures given { IfOk result (λ words. gives self (map Self.Word.text words.items)) }
        ensures unread { IfErr result (λ error. lacks self (error_kind error)) };
}

/// The words of the process.
#[derive(Drop)]
pub(crate) struct Given<'a, V> {
    system: &'a V,
}

impl<'a, V> Given<'a, V> {
    /// Those that this system gives.
    pub(crate) fn new(system: &'a V) -> Self {
        Given { system }
    }
}

/// Which words a process has, and why they could not be read, is in no contract.
impl<'a, V: Env + AllocGlobal> Arguments for Given<'a, V> {
    type Word = String;

    ghost gives = { λ _ words. Unit {0} };

    ghost lacks = { λ _ kind. Unit {0} };

    fn words(self) -> io::Result<Vec<String>> {
        let words = env::args(self.system)?.collect(self.system.alloc())?;
        Ok(words)
    }
}
