//! Why a file could not be opened.

ghost use Rattle.std.specs.Prelude.{◌≡◌};
ghost use Rattle.bk_cli.specs.Unopened.{unopened_words};

/// Why a file could not be opened, as far as the system says it.
#[derive(Clone, Copy, Debug, PartialEq, Eq)]
pub enum Unopened {
    /// There is no file of this name.
    Absent,
    /// Its reader has no right to.
    Denied,
    /// For another reason.
    Other,
}

/// What is said of the file, after its name.
pub(crate) fn why(reason: Unopened) -> &'static [u8]
    ensures { result.now ≡ unopened_words reason }
{
    match reason {
        Unopened::Absent => b": there is no such file\n",
        Unopened::Denied => b": permission denied\n",
        Unopened::Other => b": it could not be opened\n",
    }
}
