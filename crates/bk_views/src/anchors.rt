//! What became of the anchor of each odd round.

ghost use Rattle.std.specs.Prelude.{◌≡◌, ◌<◌, ◌≤◌, ◌↔◌, ◌++◌, ℕ, List, Some, IfOk, OnOk, IsTrue, string_bytes};
ghost use Rattle.bk_cert.specs.declared.place.CertRef.{CertRef};
ghost use Rattle.bk_commit.specs.Ordering.{IsCommitted};
ghost use Rattle.bk_rounds.specs.Votes.{IsAnchorOf};
ghost use Rattle.bk_views.specs.Anchors.{AreRows, AreVotesIn, IsCommittedIn, IsPassed, IsRowOf, row_text, rows_text, state_word, tally_text, votes_word};
ghost use Rattle.bk_views.specs.private.States.{state_by};

use crate::marks::{marks_of, newest_of};
use bk_cert::CertRef;
use bk_commit::anchor;
use bk_rounds::Rounds;
use std::alloc::{AllocError, Global};
use std::fmt;
use std::fmt::Write;

/// What became of the anchor of a round.
#[derive(Clone, Copy, Debug, PartialEq, Eq)]
pub enum AnchorState {
    /// It is committed, and has enough votes.
    Voted,
    /// It is committed with fewer votes: it is in the history of a later committed anchor.
    Linked,
    /// It is not committed, and a later anchor is.
    Skipped,
    /// Neither it nor a later anchor is committed.
    Open,
}

/// The anchor of an odd round. `Display` is its line, `round R leader M votes V need N STATE`.
#[derive(Clone, Copy, Debug, PartialEq, Eq)]
pub struct AnchorRow {
    /// The round.
    pub round: u32,
    /// The member that leads it.
    pub leader: u8,
    /// What the votes for its anchor weigh, `None` where the leader's certificate is not admitted.
    pub votes: Option<u64>,
    /// What they have to weigh: one more than may be faulty.
    pub need: u64,
    /// What became of the anchor.
    pub state: AnchorState,
}

// The weight of the votes for the anchor of a round.
fn votes_in(rounds: &Rounds, round: u32) -> Option<u64>
    requires { 1 ≤ round }
    ensures { AreVotesIn rounds.now.sizes rounds.now.held round result }
{
    match anchor(rounds, round) {
        Some(_) => Some(rounds.votes_weight(round)),
        None => None,
    }
}

// What became of an anchor with these votes.
fn state_of(is_committed: bool, is_passed: bool, votes: Option<u64>, need: u64) -> AnchorState
    ensures { result ≡ state_by is_committed is_passed votes need }
{
    if is_committed {
        return match votes {
            Some(weight) if need <= weight => AnchorState::Voted,
            Some(_) | None => AnchorState::Linked,
        };
    }
    if is_passed {
        AnchorState::Skipped
    } else {
        AnchorState::Open
    }
}

// The row of a round, where it is known whether its anchor is committed, and whether a later one is.
fn row_of(rounds: &Rounds, is_committed: bool, is_passed: bool, round: u32) -> AnchorRow
    requires low { 1 ≤ round }
    requires anchor { IsTrue is_committed → (a : CertRef)
        × IsAnchorOf rounds.now.sizes rounds.now.held round a }
    ensures { (anchors : List CertRef) → (IsTrue is_committed ↔ IsCommittedIn anchors round)
        → (IsTrue is_passed ↔ IsPassed anchors round)
        → IsRowOf rounds.now.sizes rounds.now.held anchors round result }
{
    let leader = rounds.leader(round);
    let votes = votes_in(rounds, round);
    let need = rounds.faulty() + 1;
    AnchorRow {
        round,
        leader,
        votes,
        need,
        state: state_of(is_committed, is_passed, votes, need),
    }
}

/// The rows of all odd rounds from 1 to the greatest round of an admitted certificate, where these are the committed
/// anchors. O(rounds and members).
pub fn anchor_rows(
    alloc: Global,
    rounds: &Rounds,
    anchors: &[CertRef],
) -> Result<Vec<AnchorRow>, AllocError>
    requires { IsCommitted rounds.now.sizes rounds.now.held anchors.now }
    ensures { IfOk result (λ rows.
        AreRows rounds.now.sizes rounds.now.held anchors.now rows.items) }
{
    let end = rounds.top() as usize + 1;
    let marks = marks_of(alloc, anchors, end)?;
    let newest = newest_of(anchors);
    let mut rows = Vec::new(alloc);
    for k in 0..end / 2 {
        let round = 2 * k + 1;
        let row = row_of(rounds, marks[round], round < newest as usize, round as u32);
        rows.push(row)?;
    }
    Ok(rows)
}

/// Adds the line of each of these rows to a text, with a line feed at its end.
pub fn push_rows(text: &mut String, rows: &[AnchorRow]) -> Result<(), AllocError>
    ensures { OnOk result (string_bytes text.new ≡ string_bytes text.old ++ rows_text rows.now) }
{
    for row in rows {
        let row = *row;
        writeln!(text, "{row}")?;
    }
    Ok(())
}

// Votes in a line: a dash where there is no anchor.
#[derive(Clone, Copy)]
struct Votes {
    weight: Option<u64>,
}

impl fmt::Display for Votes {
    ghost output = { λ v. Some (votes_word v.weight) };

    fn fmt<W: fmt::Write>(&self, f: &mut fmt::Formatter<W>) -> fmt::Result {
        match self.weight {
            Some(weight) => write!(f, "{weight}"),
            None => write!(f, "-"),
        }
    }
}

// The second half of a row's line.
#[derive(Clone, Copy)]
struct Tally {
    votes: Votes,
    need: u64,
    state: AnchorState,
}

impl fmt::Display for Tally {
    ghost output = { λ t. Some (tally_text t.votes.weight t.need t.state) };

    fn fmt<W: fmt::Write>(&self, f: &mut fmt::Formatter<W>) -> fmt::Result {
        let Tally { votes, need, state } = *self;
        write!(f, "votes {votes} need {need} {state}")
    }
}

impl fmt::Display for AnchorRow {
    ghost output = { λ row. Some (row_text row) };

    fn fmt<W: fmt::Write>(&self, f: &mut fmt::Formatter<W>) -> fmt::Result {
        let AnchorRow {
            round,
            leader,
            votes,
            need,
            state,
        } = *self;
        let votes = Votes { weight: votes };
        let tally = Tally { votes, need, state };
        write!(f, "round {round} leader {leader} {tally}")
    }
}

impl fmt::Display for AnchorState {
    ghost output = { λ state. Some (state_word state) };

    fn fmt<W: fmt::Write>(&self, f: &mut fmt::Formatter<W>) -> fmt::Result {
        match *self {
            AnchorState::Voted => write!(f, "voted"),
            AnchorState::Linked => write!(f, "linked"),
            AnchorState::Skipped => write!(f, "skipped"),
            AnchorState::Open => write!(f, "open"),
        }
    }
}
