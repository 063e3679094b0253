//! Jobs that read a text: a script, or a proof.

ghost use Rattle.std.specs.Prelude.{◌≡◌, IfOk, IfErr};
ghost use Rattle.bk_frames.specs.Device.{CanBeUsed};
ghost use Rattle.bk_results.specs.Devices.{devices};
ghost use Rattle.bk_jobs.specs.Jobs.{CheckEnds, MakeEnds};
ghost use Rattle.bk_jobs.specs.Texts.{CheckFailsBy, IsVerdict, VerdictIsOut, verdict_text};

use crate::job_end::JobEnd;
use bk_cli::{Exit, JobFault};
use bk_frames::{Sink, Source, push_all};
use bk_report::{MOST_PROOF, check_proof, check_proof_of};
use bk_script::{ScriptFault, make, read_text};
use std::alloc::{AllocError, Global};

// How many bytes of a proof are asked for at once, at most.
const PIECE: usize = 4_096;

/// Writes the feed of a script.
pub(crate) fn make_feed<R: AllocGlobal, S: Source, O: Sink>(
    rt: &R,
    source: &mut S,
    out: &mut O,
) -> Result<JobEnd, JobFault>
    requires source { CanBeUsed (S.state source.old) }
    requires out { CanBeUsed (O.state out.old) }
    ensures { MakeEnds result (devices (S.state source.old) (O.state out.old))
        (devices (S.state source.new) (O.state out.new)) }
{
    match make(rt.alloc(), source, out) {
        Ok(()) => Ok(JobEnd::with(Exit::Whole, None)),
        Err(fault) => Err(JobFault::Text(fault)),
    }
}

// The text of a verdict on a proof.
fn verdict_text(good: bool) -> &'static [u8]
    ensures { result.now ≡ verdict_text good }
{
    if good {
        b"proof good\n"
    } else {
        b"proof bad\n"
    }
}

// Whether a text is a proof of this root, and of the account with this id where one is named.
fn proves(alloc: Global, root: &[u8], account: Option<u64>, text: &[u8]) -> Result<bool, AllocError>
    ensures { IfOk result (IsVerdict root.now account text.now) }
{
    match account {
        Some(id) => check_proof_of(alloc, root, id, text),
        None => check_proof(alloc, root, text),
    }
}

// Writes the verdict on whether the text of a source is a proof.
fn judge_proof<S: Source, O: Sink>(
    alloc: Global,
    root: &[u8],
    account: Option<u64>,
    source: &mut S,
    out: &mut O,
) -> Result<bool, ScriptFault>
    requires source { CanBeUsed (S.state source.old) }
    requires out { CanBeUsed (O.state out.old) }
    ensures verdict { IfOk result (λ good. VerdictIsOut root.now account good
        (devices (S.state source.old) (O.state out.old))
        (devices (S.state source.new) (O.state out.new))) }
    ensures fault { IfErr result (λ e. CheckFailsBy root.now account e
        (devices (S.state source.old) (O.state out.old))
        (devices (S.state source.new) (O.state out.new))) }
{
    let mut piece = [0u8; PIECE];
    let text = read_text(alloc, source, &mut piece, MOST_PROOF)?;
    let good = proves(alloc, root, account, &text)?;
    push_all(out, verdict_text(good))?;
    Ok(good)
}

/// Writes the verdict on whether a text is a proof of this root, and of this account where one is named. Of a text that is
/// too long, one byte more than a proof can have is read.
pub(crate) fn check<R: AllocGlobal, S: Source, O: Sink>(
    rt: &R,
    root: &[u8],
    account: Option<u64>,
    source: &mut S,
    out: &mut O,
) -> Result<JobEnd, JobFault>
    requires source { CanBeUsed (S.state source.old) }
    requires out { CanBeUsed (O.state out.old) }
    ensures { CheckEnds root.now account result (devices (S.state source.old) (O.state out.old))
        (devices (S.state source.new) (O.state out.new)) }
{
    match judge_proof(rt.alloc(), root, account, source, out) {
        Ok(good) => Ok(JobEnd::with(Exit::by(good), None)),
        Err(fault) => Err(JobFault::Text(fault)),
    }
}
