//! The committed anchors.

ghost use Rattle.std.specs.Prelude.{◌≡◌, ◌++◌, ℕ, ◌<◌, ◌≤◌, ◌↔◌, ◌%◌, List, IsTrue, IfOk, MatchOption};
ghost use Rattle.bk_committee.specs.Sizes.{leader, members};
ghost use Rattle.bk_cert.specs.declared.place.CertRef.{CertRef};
ghost use Rattle.bk_rounds.specs.Members.{Has};
ghost use Rattle.bk_rounds.specs.Votes.{IsAnchor, IsVoted, IsLast};
ghost use Rattle.bk_commit.specs.Ordering.{IsCommitted};
ghost use Rattle.bk_commit.specs.Growth.{WereCommitted};
ghost use Rattle.bk_commit.specs.private.Way.{newest_in, IsWayTo};

use crate::history::{first_level, next_level};
use bk_cert::CertRef;
use bk_rounds::{Members, Rounds};
use std::alloc::{AllocError, Global};

/// The committed anchors, oldest first.
pub fn committed(alloc: Global, rounds: &Rounds) -> Result<Vec<CertRef>, AllocError>
    ensures { IfOk result (λ anchors. IsCommitted rounds.now.sizes rounds.now.held anchors.items) }
{
    let anchors = anchors_above(alloc, rounds, 0)?;
    Ok(anchors)
}

/// The round of the newest of these anchors, oldest first; 0 where there is none.
pub(crate) fn newest_round(anchors: &[CertRef]) -> u32
    ensures { result ≡ newest_in anchors.now }
{
    if anchors.is_empty() {
        return 0;
    }
    anchors[anchors.len() - 1].round
}

/// The committed anchors of a later round than this one, oldest first: what follows the anchors
/// that were committed before; the newest of those is of this round.
pub(crate) fn anchors_above(
    alloc: Global,
    rounds: &Rounds,
    floor: u32,
) -> Result<Vec<CertRef>, AllocError>
    ensures { IfOk result (λ part. (old : List CertRef)
        → WereCommitted rounds.now.sizes rounds.now.held old → newest_in old ≡ floor
        → IsCommitted rounds.now.sizes rounds.now.held (old ++ part.items)) }
{
    rounds.sound();
    match last_voted(rounds, floor) {
        Some(last) => {
            let mut anchors = way_back(alloc, rounds, last, floor)?;
            anchors.reverse();
            anchors.push(last)?;
            Ok(anchors)
        }
        None => Ok(Vec::new(alloc)),
    }
}

// The voted anchor of the greatest round, if that is above the floor.
fn last_voted(rounds: &Rounds, floor: u32) -> Option<CertRef>
    ensures { MatchOption result ((a : CertRef) → IsVoted rounds.now.sizes rounds.now.held a
        → a.round ≤ floor) (λ a. IsLast rounds.now.sizes rounds.now.held a × (floor < a.round)) }
{
    match rounds.newest_voted() {
        Some(last) => { if last.round > floor { Some(last) } else { None } }
        None => None,
    }
}

// The way back from an anchor, each the prior of the one before it, as far as it is above the floor.
fn way_back(
    alloc: Global,
    rounds: &Rounds,
    last: CertRef,
    floor: u32,
) -> Result<Vec<CertRef>, AllocError>
    requires anchor { IsAnchor rounds.now.sizes rounds.now.held last }
    requires above { floor < last.round }
    ensures { IfOk result (λ back. IsWayTo rounds.now.sizes rounds.now.held last floor back.items) }
{
    rounds.sound();
    // The number of members also says that it is 1 to 128.
    let _ = rounds.members();
    let mut back = Vec::new(alloc);
    let mut level = first_level(last.author);
    let mut round = last.round;
    while round > floor + 1 {
        level = next_level(rounds, level, round);
        round -= 1;
        if has_leader(rounds, level, round) {
            let prior = CertRef {
                round,
                author: rounds.leader(round),
            };
            back.push(prior)?;
            level = first_level(prior.author);
        }
    }
    Ok(back)
}

// Whether the round is one of anchors, and its leader is in the level.
fn has_leader(rounds: &Rounds, level: Members, round: u32) -> bool
    requires { 1 ≤ round }
    ensures { IsTrue result ↔ ((round % 2 ≡ 1) × Has level (leader rounds.now.sizes round)) }
{
    // The number of members also says that it is 1 to 128.
    let _ = rounds.members();
    round % 2 == 1 && level.has(rounds.leader(round))
}
