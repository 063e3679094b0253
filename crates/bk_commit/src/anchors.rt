//! Anchors and their votes.

ghost use Rattle.std.specs.Prelude.{ℕ, ◌↔◌, IfSome, IfNone};
ghost use Rattle.bk_cert.specs.declared.place.CertRef.{CertRef};
ghost use Rattle.bk_rounds.specs.Admission.{IsPresent};
ghost use Rattle.bk_rounds.specs.Members.{Has};
ghost use Rattle.bk_rounds.specs.Votes.{VotesFor, IsAnchorOf};

use bk_cert::CertRef;
use bk_rounds::{Members, Rounds};

/// The anchor of a round: the admitted certificate of an odd round by the round's leader.
pub fn anchor(rounds: &Rounds, round: u32) -> Option<CertRef>
    ensures some { IfSome result (IsAnchorOf rounds.now.sizes rounds.now.held round) }
    ensures none { IfNone result ((a : CertRef)
        → IsAnchorOf rounds.now.sizes rounds.now.held round a → ⊥) }
{
    if round % 2 == 0 {
        return None;
    }
    let place = CertRef {
        round,
        author: rounds.leader(round),
    };
    match rounds.at(place) {
        Some(_) => Some(place),
        None => None,
    }
}

/// The members that vote for the anchor of a round: whose certificate of the next round names it
/// as a parent. Nobody where the round has no anchor.
pub fn votes(rounds: &Rounds, round: u32) -> Members
    ensures { (x : ℕ) → Has result x ↔ ((a : CertRef)
        × IsAnchorOf rounds.now.sizes rounds.now.held round a
        × VotesFor rounds.now.sizes rounds.now.held a x) }
{
    match anchor(rounds, round) {
        Some(a) => votes_for(rounds, a),
        None => Members::none(),
    }
}

// The members whose certificate of the next round names the one at a as a parent.
fn votes_for(rounds: &Rounds, a: CertRef) -> Members
    requires { IsPresent rounds.now.sizes rounds.now.held a }
    ensures { (x : ℕ) → Has result x ↔ VotesFor rounds.now.sizes rounds.now.held a x }
{
    rounds.sound();
    let mut voters = Members::none();
    for x in 0..rounds.members() {
        let child = CertRef {
            round: a.round + 1,
            author: x,
        };
        if rounds.parents_of(child).has(a.author) {
            voters = voters.with(x);
        }
    }
    voters
}
