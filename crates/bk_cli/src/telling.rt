//! What is reported of a fault on standard error.

ghost use Rattle.std.specs.Prelude.{◌++◌, codes};
ghost use Rattle.bk_frames.specs.Device.{CanBeUsed};
ghost use Rattle.bk_cli.specs.Explanations.{told, told_of};
ghost use Rattle.bk_cli.specs.FaultLines.{Pushes, Reports};
ghost use Rattle.bk_cli.specs.Files.{shown};
ghost use Rattle.bk_cli.specs.Unopened.{told_unopened};

use crate::about::FaultSubject;
use crate::explain::in_words;
use crate::fault_line::{fault_line, report};
use crate::job::Job;
use crate::job_fault::JobFault;
use crate::shown::push_line;
use crate::unopened::{Unopened, why};
use bk_frames::{Sink, WriteFault, push_all};
use bk_results::ScriptFault;

// Writes a line, and then the one that ends so and is about what has this name.
fn push_both<E: Sink>(line: &[u8], name: &str, end: &[u8], err: &mut E) -> Result<(), WriteFault>
    requires { CanBeUsed (E.state err.old) }
    ensures { Pushes (line.now ++ (codes "bkreplay: " ++ (shown name.now ++ end.now))) result
        (E.state err.old) (E.state err.new) }
{
    push_all(err, line)?;
    push_line(name, end, err)?;
    Ok(())
}

// Reports both lines.
fn tell_both<E: Sink>(line: &[u8], name: &str, end: &[u8], err: &mut E)
    requires { CanBeUsed (E.state err.old) }
    ensures { Reports (line.now ++ (codes "bkreplay: " ++ (shown name.now ++ end.now)))
        (E.state err.old) (E.state err.new) }
{
    // A line that cannot be written is reported nowhere.
    let _ = push_both(line, name, end, err);
}

/// Reports a fault in its line and, where `verbose` asks for words, in one more line that names the file that it is about.
/// A sink that fails is ignored.
pub fn tell_of<E: Sink>(name: &str, verbose: bool, fault: &JobFault, err: &mut E)
    requires { CanBeUsed (E.state err.old) }
    ensures { Reports (told_of verbose name.now fault.now) (E.state err.old) (E.state err.new) }
{
    if verbose {
        let words = in_words(fault);
        tell_both(fault_line(fault).as_slice(), name, words.as_slice(), err);
    } else {
        report(fault, err);
    }
}

/// Reports the fault of a job, which is about one of its files or about its output, as [`tell_of`] does.
pub fn tell<E: Sink>(job: &Job, verbose: bool, fault: &JobFault, err: &mut E)
    requires { CanBeUsed (E.state err.old) }
    ensures { Reports (told verbose job.now fault.now) (E.state err.old) (E.state err.new) }
{
    tell_of(FaultSubject::of(job, fault).name(job), verbose, fault, err);
}

/// Reports that a file of this name could not be opened and, where `verbose` asks for words, for what reason.
pub fn tell_unopened<E: Sink>(name: &str, verbose: bool, reason: Unopened, err: &mut E)
    requires { CanBeUsed (E.state err.old) }
    ensures { Reports (told_unopened verbose name.now reason) (E.state err.old) (E.state err.new) }
{
    let fault = JobFault::Text(ScriptFault::Read);
    if verbose {
        tell_both(fault_line(&fault).as_slice(), name, why(reason), err);
    } else {
        report(&fault, err);
    }
}
