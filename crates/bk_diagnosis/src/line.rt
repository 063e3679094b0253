//! The lines of a diagnosis.

ghost use Rattle.std.specs.Prelude.{◌≡◌, ◌++◌, List, Some, OnOk, string_bytes};
ghost use Rattle.bk_diagnosis.specs.Answers.{are_some};
ghost use Rattle.bk_diagnosis.specs.Lines.{line_text, text_of};
ghost use Rattle.bk_diagnosis.specs.declared.line.Line.{Line};

use bk_certcheck::Rule;
use bk_digest::Digest32;
use std::alloc::AllocError;
use std::fmt;
use std::fmt::Write;

/// A line. `Display` is its text, without the line feed.
#[derive(Clone, Copy, Debug, PartialEq, Eq)]
pub enum Line {
    /// A certificate with this id waits here.
    Waiting {
        round: u32,
        author: u8,
        id: Digest32,
    },
    /// No certificate frame has the id of this parent.
    Absent {
        id: Digest32,
    },
    /// No good certificate has it; the first that has it, and is rejected, is in this frame, and breaks this rule.
    Rejected {
        id: Digest32,
        frame: u64,
        rule: Rule,
    },
    /// This parent waits itself, here.
    ParentWaiting {
        id: Digest32,
        round: u32,
        author: u8,
    },
    /// This parent is admitted here, but not in the round just before.
    ParentRound {
        id: Digest32,
        round: u32,
        author: u8,
    },
    /// The authors of all parents weigh this much together, and have to weigh a quorum.
    Weight {
        weight: u64,
        quorum: u64,
    },
    /// The order names a batch with this digest, first in the certificate here, and no batch frame has it.
    Missing {
        digest: Digest32,
        round: u32,
        author: u8,
    },
    /// Two headers have this id, or two payloads this digest.
    Collision {
        id: Digest32,
    },
    /// A member made certificates with these two ids for one round.
    Equivocation {
        round: u32,
        author: u8,
        first: Digest32,
        second: Digest32,
    },
}

impl fmt::Display for Line {
    ghost output = { λ l. Some (line_text l) };

    fn fmt<W: fmt::Write>(&self, f: &mut fmt::Formatter<W>) -> fmt::Result {
        match *self {
            Line::Waiting { round, author, id } => write!(f, "waiting {round} {author} {id}"),
            Line::Absent { id } => write!(f, "parent {id} absent"),
            Line::Rejected { id, frame, rule } => {
                let rule = rule as u8;
                write!(f, "parent {id} rejected {frame} {rule}")
            }
            Line::ParentWaiting { id, round, author } => {
                write!(f, "parent {id} waiting {round} {author}")
            }
            Line::ParentRound { id, round, author } => write!(
                f,
                "parent {id} round {round} {author}"
            ),
            Line::Weight { weight, quorum } => write!(f, "parents weigh {weight} of {quorum}"),
            Line::Missing {
                digest,
                round,
                author,
            } => write!(f, "missing {digest} {round} {author}"),
            Line::Collision { id } => write!(f, "collision {id}"),
            Line::Equivocation {
                round,
                author,
                first,
                second,
            } => write!(f, "equivocation {round} {author} {first} {second}"),
        }
    }
}

/// Adds each of these lines to a text, with a line feed at its end.
pub fn push_lines(text: &mut String, lines: &[Line]) -> Result<(), AllocError>
    ensures { OnOk result (string_bytes text.new ≡ string_bytes text.old ++ text_of lines.now) }
{
    for line in lines {
        let line = *line;
        writeln!(text, "{line}")?;
    }
    Ok(())
}

/// Whether there is a line in the text of lines.
pub(crate) fn has_lines(text: &str) -> bool
    ensures { (lines : List Line) → text.now ≡ text_of lines → result ≡ are_some lines }
{
    !text.is_empty()
}
