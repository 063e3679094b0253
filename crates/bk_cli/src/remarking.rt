//! The lines on standard error that report what a job remarks beside its answer.

ghost use Rattle.std.specs.Prelude.{◌≡◌};
ghost use Rattle.bk_frames.specs.Device.{CanBeUsed};
ghost use Rattle.bk_cli.specs.Explanations.{ended, gap_note, gap_words, remarks_told, tag_note, tag_words};
ghost use Rattle.bk_cli.specs.FaultLines.{Pushes, Reports};

use crate::about::FaultSubject;
use crate::explain::words;
use crate::job::Job;
use crate::line::Piece::{Digest, Number, Text};
use crate::line::ShortLine;
use crate::remarks::Remarks;
use crate::shown::push_line;
use bk_digest::Digest32;
use bk_frames::{Sink, WriteFault};
use bk_results::WrongTag;

// What comes after the name of a feed whose order stops at a missing batch.
fn gap_end(digest: &Digest32) -> ShortLine
    ensures { result.items ≡ ended (gap_words digest.now) }
{
    words(&[
        Text(b"the order stops at the missing batch"),
        Digest(digest),
    ])
}

// What comes after the name of a feed that has a wrong tag.
fn tag_end(wrong: &WrongTag) -> ShortLine
    ensures { result.items ≡ ended (tag_words wrong.now) }
{
    words(&[
        Text(b"of the certificate in frame"),
        Number(wrong.frame),
        Text(b" the tag of signer"),
        Number(u64::from(wrong.signer)),
        Text(b" is not that of its key"),
    ])
}

// Writes the line of a feed whose order stops at a missing batch, nothing where none is missing.
fn push_gap<E: Sink>(name: &str, missing: &Option<Digest32>, err: &mut E) -> Result<(), WriteFault>
    requires { CanBeUsed (E.state err.old) }
    ensures { Pushes (gap_note name.now missing.now) result (E.state err.old) (E.state err.new) }
{
    match missing {
        Some(digest) => push_line(name, gap_end(digest).as_slice(), err),
        None => Ok(()),
    }
}

// Writes the line of a feed that has a wrong tag, nothing where none is wrong.
fn push_tag<E: Sink>(name: &str, forged: &Option<WrongTag>, err: &mut E) -> Result<(), WriteFault>
    requires { CanBeUsed (E.state err.old) }
    ensures { Pushes (tag_note name.now forged.now) result (E.state err.old) (E.state err.new) }
{
    match forged {
        Some(wrong) => push_line(name, tag_end(wrong).as_slice(), err),
        None => Ok(()),
    }
}

// Writes all lines of a job.
fn push_remarks<E: Sink>(job: &Job, remarks: &Remarks, err: &mut E) -> Result<(), WriteFault>
    requires { CanBeUsed (E.state err.old) }
    ensures { Pushes (remarks_told job.now remarks.now) result (E.state err.old) (E.state err.new) }
{
    push_gap(FaultSubject::First.name(job), &remarks.first, err)?;
    push_gap(FaultSubject::Second.name(job), &remarks.second, err)?;
    push_tag(FaultSubject::First.name(job), &remarks.forged, err)?;
    Ok(())
}

/// Reports what a job remarks beside its answer, a line for each, with the name of the file. A sink that fails is ignored.
pub fn tell_remarks<E: Sink>(job: &Job, remarks: &Remarks, err: &mut E)
    requires { CanBeUsed (E.state err.old) }
    ensures { Reports (remarks_told job.now remarks.now) (E.state err.old) (E.state err.new) }
{
    // A line that cannot be written is reported nowhere.
    let _ = push_remarks(job, remarks, err);
}
