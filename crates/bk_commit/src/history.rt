//! What is in the history of a certificate.

ghost use Rattle.std.specs.Prelude.{◌≡◌, ℕ, ◌<◌, ◌↔◌, IsTrue};
ghost use Rattle.bk_committee.specs.Sizes.{members};
ghost use Rattle.bk_rounds.specs.Admission.{IsPresent};
ghost use Rattle.bk_rounds.specs.Members.{Has};
ghost use Rattle.bk_commit.specs.Ordering.{InHistory};
ghost use Rattle.bk_commit.specs.Level.{IsNextLevel};

use bk_cert::CertRef;
use bk_rounds::{Members, Rounds};

/// Whether b is in the history of a.
pub fn reaches(rounds: &Rounds, a: CertRef, b: CertRef) -> bool
    ensures { IsTrue result ↔ InHistory rounds.now.sizes rounds.now.held a b }
{
    if a == b {
        return true;
    }
    if !is_present(rounds, a) || !is_present(rounds, b) {
        return false;
    }
    is_below(rounds, a, b)
}

// Whether an admitted certificate has this place.
fn is_present(rounds: &Rounds, place: CertRef) -> bool
    ensures { IsTrue result ↔ IsPresent rounds.now.sizes rounds.now.held place }
{
    match rounds.at(place) {
        Some(_) => true,
        None => false,
    }
}

// Whether b is in the history of a, by a sweep from a down to the round of b.
fn is_below(rounds: &Rounds, a: CertRef, b: CertRef) -> bool
    requires from { IsPresent rounds.now.sizes rounds.now.held a }
    requires to { IsPresent rounds.now.sizes rounds.now.held b }
    ensures { IsTrue result ↔ InHistory rounds.now.sizes rounds.now.held a b }
{
    rounds.sound();
    // The number of members also says that it is 1 to 128.
    let _ = rounds.members();
    if a.round < b.round {
        return false;
    }
    let mut level = first_level(a.author);
    let mut round = a.round;
    while round > b.round {
        level = next_level(rounds, level, round);
        round -= 1;
    }
    level.has(b.author)
}

/// The set of this member alone.
pub fn first_level(author: u8) -> Members
    requires { author < 128 }
    ensures { (x : ℕ) → Has result x ↔ (x ≡ author) }
{
    Members::none().with(author)
}

/// The parents of the level's certificates, which are of this round, as members of the round
/// before.
pub fn next_level(rounds: &Rounds, level: Members, round: u32) -> Members
    ensures { IsNextLevel rounds.now.sizes rounds.now.held level round result }
{
    let mut next = Members::none();
    let mut left = level;
    while let Some(y) = left.pop() {
        next = next.union(rounds.parents_of(CertRef { round, author: y }));
    }
    next
}
