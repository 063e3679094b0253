//! The last round of a feed.

ghost use Rattle.std.specs.Prelude.{◌≡◌, ◌≤◌, max, IfOk};
ghost use Rattle.bk_picture.specs.Picture.{IsLastRound, rounds_shown};
ghost use Rattle.bk_picture.specs.private.Last.{IsLatest};

use bk_cert::CertRef;
use bk_rounds::Rounds;
use std::alloc::AllocError;

// The greater of two rounds.
fn later(one: u32, other: u32) -> u32
    ensures { result ≡ max one other }
{
    if one < other { other } else { one }
}

// The greatest round of these places, 0 where there is none.
fn latest_of(places: &[CertRef]) -> u32
    ensures { IsLatest places.now result }
{
    let mut latest = 0;
    for place in places {
        latest = later(latest, place.round);
    }
    latest
}

/// The greatest round of a held certificate, 0 where none is held.
pub(crate) fn last_of(rounds: &Rounds) -> Result<u32, AllocError>
    ensures { IfOk result (IsLastRound rounds.now.held) }
{
    let waiting = rounds.waiting()?;
    let last = later(rounds.top(), latest_of(&waiting));
    Ok(last)
}

/// How many of `count` rounds from the round `from` on a feed has whose last round is this one.
pub(crate) fn shown_of(from: u32, count: u32, last: u32) -> u32
    requires { 1 ≤ from }
    ensures is { result ≡ rounds_shown from count last }
    ensures few { result ≤ count }
{
    if last < from {
        0
    } else {
        count.min(last - from + 1)
    }
}
