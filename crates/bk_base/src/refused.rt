ghost use Rattle.std.specs.Prelude.{◌≡◌};
ghost use Rattle.bk_base.specs.Refusals.{code_of};

/// Why an event is not allowed. Where two reasons hold at once, it is the one that is tested first.
#[derive(Clone, Copy, Debug, PartialEq, Eq)]
pub enum Refused {
    /// A claim of a place that is none, that is not waiting, or that an earlier place in conflict
    /// keeps waiting. Tested after `NotIdle`.
    NotReady = 1,
    /// A claim by a worker that is none or holds a place.
    NotIdle = 2,
    /// Any other event of a worker that is none or holds no place.
    NotHolder = 3,
    /// A word that is not one of the place, or for a write not one declared for writing. Tested
    /// after `NotHolder`.
    NotDeclared = 4,
    /// A read after the first write; a write before all words were read, or of a word that is
    /// written; a finish before all words were read and all declared for writing were written.
    /// Tested last.
    OutOfTurn = 5,
}

impl Refused {
    /// Its number, 1 to 5.
    pub fn code(self) -> u8
        ensures { result ≡ code_of self }
    {
        self as u8
    }
}
