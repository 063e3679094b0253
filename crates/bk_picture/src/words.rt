//! The lines of a picture's text.

ghost use Rattle.std.specs.Prelude.{◌≡◌, ◌<◌, ◌^◌, Some};
ghost use Rattle.bk_views.specs.Anchors.{votes_word};
ghost use Rattle.bk_picture.specs.Svg.{class_word, height_of, left_of, note_words, title_words};

use crate::picture::{Circle, Class};
use bk_views::{AnchorRow, AnchorState};
use std::fmt;

impl fmt::Display for Class {
    ghost output = { λ class. Some (class_word class) };

    fn fmt<W: fmt::Write>(&self, f: &mut fmt::Formatter<W>) -> fmt::Result {
        match *self {
            Class::Ordered => write!(f, "ordered"),
            Class::Admitted => write!(f, "admitted"),
            Class::Waiting => write!(f, "waiting"),
        }
    }
}

// Votes in a title: a dash where there is no anchor.
#[derive(Clone, Copy)]
struct Votes {
    weight: Option<u64>,
}

impl fmt::Display for Votes {
    ghost output = { λ v. Some (votes_word v.weight) };

    fn fmt<W: fmt::Write>(&self, f: &mut fmt::Formatter<W>) -> fmt::Result {
        match self.weight {
            Some(weight) => write!(f, "{weight}"),
            None => write!(f, "-"),
        }
    }
}

/// What the title of a circle says of the anchor that the circle is, if it is one.
#[derive(Clone, Copy)]
pub(crate) struct Note {
    pub anchor: Option<AnchorRow>,
}

impl fmt::Display for Note {
    ghost output = { λ n. Some (note_words n.anchor) };

    fn fmt<W: fmt::Write>(&self, f: &mut fmt::Formatter<W>) -> fmt::Result {
        match self.anchor {
            Some(row) => {
                let AnchorRow {
                    votes,
                    need,
                    state,
                    ..
                } = row;
                let votes = Votes { weight: votes };
                write!(f, ", anchor {state}, votes {votes} need {need}")
            }
            None => Ok(()),
        }
    }
}

/// The title of a certificate's circle.
#[derive(Clone, Copy)]
pub(crate) struct Title {
    pub round: u32,
    pub member: u8,
    pub circle: Circle,
    pub note: Note,
}

impl fmt::Display for Title {
    ghost output = { λ t. Some (title_words t.round t.member t.circle t.note.anchor) };

    fn fmt<W: fmt::Write>(&self, f: &mut fmt::Formatter<W>) -> fmt::Result {
        let Title {
            round,
            member,
            circle,
            note,
        } = *self;
        let Circle { id, class } = circle;
        write!(f, "round {round} member {member} {class}{note}, id {id}")
    }
}

/// Where the row of a member is.
pub(crate) fn height_of(member: u8) -> u64
    ensures is { result ≡ height_of member }
    ensures small { result < 2 ^ 16 }
{
    28 * u64::from(member) + 82
}

/// Where the column of a round is.
pub(crate) fn left_of(from: u32, round: u32) -> u64
    ensures { result ≡ left_of from round }
{
    40 * u64::from(round.saturating_sub(from)) + 60
}
