//! How a job ends with `--strict`.

ghost use Rattle.std.specs.Prelude.{◌≡◌, ◌<◌, ◌++◌, codes, true};
ghost use Rattle.std.specs.List.{sum_by};
ghost use Rattle.bk_frames.specs.Device.{CanBeUsed};
ghost use Rattle.bk_cli.specs.FaultLines.{Reports};
ghost use Rattle.bk_cli.specs.Pieces.{room, said};
ghost use Rattle.bk_cli.specs.Strictness.{IsJudged, flaw_line, is_judged};

use crate::exit::Exit;
use crate::line::Piece::{Digest, Number, Text};
use crate::line::{Piece, ShortLine, short_line};
use bk_frames::{Sink, push_all};
use bk_results::Flaw;

impl Exit {
    // Whether a flaw of the feed counts after this end.
    fn is_judged(self) -> bool
        ensures { result ≡ is_judged self }
    {
        match self {
            Exit::Whole | Exit::No | Exit::Missing => true,
            Exit::WrongInput | Exit::Stopped | Exit::Failed | Exit::Flawed => false,
        }
    }
}

// The line of these pieces.
fn strict(pieces: &[Piece<'_>]) -> ShortLine
    requires { sum_by room pieces.now < 184 }
    ensures { result.items ≡ codes "strict: " ++ said pieces.now ++ codes "\n" }
{
    short_line(b"strict: ", pieces)
}

// The line of a flaw.
fn line_of(flaw: &Flaw) -> ShortLine
    ensures { result.items ≡ flaw_line flaw.now }
{
    match flaw {
        Flaw::Missing { digest } => strict(&[Text(b"missing"), Digest(digest)]),
        Flaw::Rejected { frames } => strict(&[Text(b"rejected"), Number(*frames)]),
        Flaw::Waiting { certs } => strict(&[Text(b"waiting"), Number(*certs)]),
        Flaw::NothingOrdered => strict(&[Text(b"nothing ordered")]),
    }
}

// Reports a flaw.
fn tell_flaw<E: Sink>(flaw: &Flaw, err: &mut E)
    requires { CanBeUsed (E.state err.old) }
    ensures { Reports (flaw_line flaw.now) (E.state err.old) (E.state err.new) }
{
    // A line that cannot be written is reported nowhere.
    let _ = push_all(err, line_of(flaw).as_slice());
}

/// How the program ends after a job whose feed has this flaw, if it has one. Where the job came to an answer, be it no, the
/// flaw is reported, and the end is `Flawed`. A sink that fails is ignored.
pub fn judge<E: Sink>(end: Exit, flaw: &Option<Flaw>, err: &mut E) -> Exit
    requires { CanBeUsed (E.state err.old) }
    ensures { IsJudged (is_judged end) flaw.now end result (E.state err.old) (E.state err.new) }
{
    match flaw {
        Some(flaw) if end.is_judged() => {
            tell_flaw(flaw, err);
            Exit::Flawed
        }
        Some(_) | None => end,
    }
}
