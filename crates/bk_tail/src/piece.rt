//! One piece of a feed that is followed.

ghost use Rattle.std.specs.Prelude.{◌≡◌, ◌<◌, ◌≤◌, ℕ, List, length, true, false, IfOk, IfErr};
ghost use Rattle.bk_answer.specs.RunReport.{reach_of};
ghost use Rattle.bk_base.specs.Feed.{Frame};
ghost use Rattle.bk_follow.specs.Follower.{receipts_in};
ghost use Rattle.bk_follow.specs.Queries.{missing_in};
ghost use Rattle.bk_frames.specs.Device.{CanBeUsed, Device, Ends};
ghost use Rattle.bk_frames.specs.Reading.{room_of};
ghost use Rattle.bk_frames.specs.declared.pulling.TheConstants.{PIECE};
ghost use Rattle.bk_tail.specs.Tailing.{EndsAsAsked};
ghost use Rattle.bk_tail.specs.private.Steps.{AdvanceFails, Advanced, CameIn, EndsIf, HasFollowed, PullFails};

use bk_follow::Follower;
use bk_frames::{FaultCode, FeedFault, Source};
use bk_pool::Gate;
use bk_results::{Fault, Status};
use std::sync::Wait;
use std::thread::{Threads, sleep};
use std::time::{Clock, Duration};

// How long it waits before it looks again, in milliseconds.
const PAUSE: u64 = 100;

// Pulls the next piece, of at most the bytes that `piece` has room for. Returns how many came: 0 at the end. The frame
// that is being read begins at this offset.
fn pull_once<S: Source>(source: &mut S, piece: &mut [u8], offset: u64) -> Result<usize, Fault>
    requires sound { CanBeUsed (S.state source.old) }
    requires some { 0 < length piece.old }
    ensures came { IfOk result (CameIn false (S.state source.old) (S.state source.new) piece.new) }
    ensures failed { IfErr result (PullFails false offset (S.state source.old) (S.state source.new)) }
{
    match source.pull(piece) {
        Ok(count) => Ok(count),
        Err(_) => {
            let code = FaultCode::Read;
            Err(Fault::Feed(FeedFault { offset, code }))
        }
    }
}

// Pulls until something comes, with a pause after each time that nothing did.
fn pull_waiting<R: Clock + Wait, S: Source>(
    rt: &R,
    source: &mut S,
    piece: &mut [u8],
    offset: u64,
) -> Result<usize, Fault>
    requires sound { CanBeUsed (S.state source.old) }
    requires some { 0 < length piece.old }
    ensures came { IfOk result (CameIn true (S.state source.old) (S.state source.new) piece.new) }
    ensures failed { IfErr result (PullFails true offset (S.state source.old) (S.state source.new)) }
{
    for _ in rt.forever() {
        let count = pull_once(source, piece, offset)?;
        if count > 0 {
            return Ok(count);
        }
        sleep(rt, Duration::from_millis(PAUSE));
    }
    unreachable!()
}

// Pulls the next piece. Where it is waited for, there is no end: it waits until something comes.
fn pull<R: Clock + Wait, S: Source>(
    rt: &R,
    source: &mut S,
    piece: &mut [u8],
    offset: u64,
    waits: bool,
) -> Result<usize, Fault>
    requires sound { CanBeUsed (S.state source.old) }
    requires some { 0 < length piece.old }
    ensures came { IfOk result (CameIn waits (S.state source.old) (S.state source.new) piece.new) }
    ensures failed { IfErr result (PullFails waits offset (S.state source.old) (S.state source.new)) }
{
    if waits {
        pull_waiting(rt, source, piece, offset)
    } else {
        pull_once(source, piece, offset)
    }
}

/// Pulls the next piece of a feed, takes it, and settles the whole frames so far; at the end of the source it closes the
/// feed. Returns whether the end was reached. Where it is waited for, there is no end.
///
/// A fault of the feed that the piece shows comes before a stop.
pub(crate) fn advance<R, S: Source, G: Gate + Sync>(
    rt: &R,
    source: &mut S,
    piece: &mut [u8],
    follower: &mut Follower,
    gate: &G,
    waits: bool,
) -> Result<bool, Fault>
where
    R: Clock + Threads + Wait + Sync,
    requires sound { CanBeUsed (S.state source.old) }
    requires some { 0 < length piece.old }
    requires few { length piece.old ≤ PIECE }
    requires followed { (start : Device) × (bytes : List ℕ) × (frames : List Frame)
        × HasFollowed start (S.state source.old) bytes frames follower.old }
    ensures next { IfOk result (λ ended. (start : Device) (bytes : List ℕ) (frames : List Frame)
        → HasFollowed start (S.state source.old) bytes frames follower.old
        → Advanced start (S.state source.new) bytes frames follower.new ended) }
    ensures goes_on { waits ≡ true → IfOk result (λ ended. ended ≡ false) }
    ensures ends { waits ≡ false → IfOk result (λ ended. EndsIf ended
        (S.state source.old) (S.state source.new)) }
    ensures nearer { IfOk result (λ ended. ended ≡ false
        → room_of follower.new.cut < room_of follower.old.cut) }
    ensures fault { IfErr result (λ f. (start : Device) (bytes : List ℕ) (frames : List Frame)
        → HasFollowed start (S.state source.old) bytes frames follower.old
        → (waits ≡ false → Ends 0 start (S.state source.old))
        → AdvanceFails f start (S.state source.new) bytes
        (length (receipts_in follower.old.book))) }
    ensures asked { IfErr result (λ f. EndsAsAsked waits f
        (S.state source.old) (S.state source.new)) }
{
    let count = pull(rt, source, piece, follower.offset(), waits)?;
    if count == 0 {
        follower.close(rt, gate)?;
        return Ok(true);
    }
    follower.feed(rt, &piece[..count])?;
    follower.settle(rt, gate)?;
    Ok(false)
}

/// How a feed that is followed to its end ends: whether a batch of its order is missing.
pub(crate) fn reach(follower: &Follower) -> Status
    ensures { result ≡ reach_of (missing_in follower.now.book) }
{
    match follower.missing() {
        Some(_) => Status::Missing,
        None => Status::Whole,
    }
}
