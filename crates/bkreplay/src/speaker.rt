//! What the program says of its words.

ghost use Rattle.std.specs.Prelude.{◌≡◌, ◌≢◌, ◌⊎◌, Some, None, true, false, is_ok};
ghost use Rattle.bk_frames.specs.Device.{CanBeUsed};
ghost use Rattle.bk_cli.specs.Exits.{has_fault};
ghost use Rattle.bkreplay.specs.Endings.{EndsByKind, SaysNoMemory, SaysUnwritten};
ghost use Rattle.clap.specs.Words.{kind_of};

use bk_cli::{Exit, JobFault, report};
use bk_frames::Sink;
use bk_results::Fault;
use clap::Error;
use clap::error::ErrorKind;
use std::io;
use std::marker::Model;

/// The standard streams, for help, the version and faults of the words. What has a `Speaker` can answer once, with an error
/// of `clap`, and contracts see the `Speaker` as the error that it has answered with.
#[derive(Drop)]
pub(crate) struct Speaker<'a, Q> {
    prints: &'a Q,
    said: Option<Error>,
}

impl<'a, Q> Model for Speaker<'a, Q> {
    ghost use Rattle.std.specs.Prelude.{Option};
    ghost use Rattle.clap.specs.declared.error.Error.{Error};

    ghost Value = { Option Error };

    ghost view = { λ s. s.said };
}

impl<'a, Q> Speaker<'a, Q> {
    /// That of these streams, which has said nothing. It has no leave to print.
    pub(crate) fn new(prints: &'a Q) -> Self
        ensures { result ≡ None }
    {
        Speaker { prints, said: None }
    }
}

impl<'a, Q: Print + Eprint> Speaker<'a, Q> {
    /// Help and the version go to standard output, a fault of the words to standard error.
    pub(crate) fn answer<E: Sink>(&mut self, error: Error, err: &mut E) -> Exit
        requires silent { self.old ≡ None }
        requires err { CanBeUsed (E.state err.old) }
        ensures said { self.new ≡ Some error }
        ensures kind { EndsByKind error result }
        ensures quiet { has_fault result ≡ false → err.new ≡ err.old }
        ensures memory { kind_of error ≡ ErrorKind.OutOfMemory
            → SaysNoMemory (E.state err.old) (E.state err.new) }
        ensures unsaid { kind_of error ≢ ErrorKind.OutOfMemory → result ≡ Exit.Failed
            → SaysUnwritten (E.state err.old) (E.state err.new) }
        ensures ends { (result ≡ Exit.Whole) ⊎ (result ≡ Exit.No) ⊎ (result ≡ Exit.Failed) }
    {
        let end = print(self.prints, &error, err);
        self.said = Some(error);
        end
    }
}

// Prints an error of the words; where memory ran out for it, one line says so.
fn print<Q: Print + Eprint, E: Sink>(prints: &Q, error: &Error, err: &mut E) -> Exit
    requires { CanBeUsed (E.state err.old) }
    ensures kind { EndsByKind error.now result }
    ensures quiet { has_fault result ≡ false → err.new ≡ err.old }
    ensures memory { kind_of error.now ≡ ErrorKind.OutOfMemory
        → SaysNoMemory (E.state err.old) (E.state err.new) }
    ensures unsaid { kind_of error.now ≢ ErrorKind.OutOfMemory → result ≡ Exit.Failed
        → SaysUnwritten (E.state err.old) (E.state err.new) }
    ensures ends { (result ≡ Exit.Whole) ⊎ (result ≡ Exit.No) ⊎ (result ≡ Exit.Failed) }
{
    if error.kind() == ErrorKind::OutOfMemory {
        report(&JobFault::Replay(Fault::Memory), err);
        return Exit::Failed;
    }
    let printed = error.print(prints);
    if error.use_stderr() {
        return Exit::No;
    }
    after(&printed, err)
}

// How the program ends after help or the version, by whether it was printed.
fn after<E: Sink>(printed: &io::Result<()>, err: &mut E) -> Exit
    requires { CanBeUsed (E.state err.old) }
    ensures printed { is_ok printed.now ≡ true → (result ≡ Exit.Whole) × (err.new ≡ err.old) }
    ensures unprinted { is_ok printed.now ≡ false → (result ≡ Exit.Failed)
        × SaysUnwritten (E.state err.old) (E.state err.new) }
{
    match printed {
        Ok(()) => Exit::Whole,
        Err(_) => {
            report(&JobFault::Replay(Fault::Write { written: 0 }), err);
            Exit::Failed
        }
    }
}
