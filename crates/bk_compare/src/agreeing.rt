//! Whether the feeds of two sources agree.

ghost use Rattle.bk_frames.specs.declared.pulling.TheConstants.{PIECE};
ghost use Rattle.std.specs.Prelude.{◌≡◌, ◌<◌, ◌≤◌, None, length, OnOk, IfOk, IfErr};
ghost use Rattle.bk_frames.specs.Device.{CanBeUsed, Works, GaveAll};
ghost use Rattle.bk_follow.specs.Agreement.{FollowersAgree};
ghost use Rattle.bk_follow.specs.Follower.{unfed};
ghost use Rattle.bk_compare.specs.FeedAgreement.{BothGave, BothWork, ComparisonStops, FeedsAgree, FeedsCompared, FollowFails, sources};
ghost use Rattle.bk_compare.specs.private.Ends.{BothHaveEnded, ComparisonStopsWith, Ends, EndsNot, HasEnded, IsDifferOf, OfEnded};
ghost use Rattle.bk_results.specs.declared.differ.Differ.TheVariants as differ;

use crate::compared::Compared;
use bk_follow::{Follower, Settings, is_stop};
use bk_frames::{PIECE, Source};
use bk_pool::Gate;
use bk_results::{Agreed, CompareStop, Differ, Fault};
use std::alloc::Global;
use std::sync::Wait;
use std::thread::Threads;

// Settles the feed that ends here. A stop is no fault: it may be one of both feeds that are compared.
fn close<R: Threads + Wait + Sync, G: Gate + Sync>(
    rt: &R,
    follower: &mut Follower,
    gate: &G,
) -> Result<(), Fault>
    requires works { follower.old.fault ≡ None }
    ensures works { OnOk result (follower.new.fault ≡ None) }
    ensures ends { OnOk result (Ends follower.old follower.new) }
    ensures fault { IfErr result (EndsNot follower.old) }
{
    match follower.close(rt, gate) {
        Ok(()) => Ok(()),
        Err(fault) if is_stop(&fault) => Ok(()),
        Err(fault) => Err(fault),
    }
}

// Follows the feed of a source to its end.
fn follow_in_pieces<R: Threads + Wait + Sync, S: Source, G: Gate + Sync>(
    rt: &R,
    source: &mut S,
    piece: &mut [u8],
    follower: &mut Follower,
    gate: &G,
) -> Result<(), Fault>
    requires some { 0 < length piece.old }
    requires few { length piece.old ≤ PIECE }
    requires first { follower.old ≡ unfed }
    requires sound { CanBeUsed (S.state source.old) }
    ensures works { OnOk result (Works (S.state source.old) (S.state source.new)
        × (follower.new.fault ≡ None)) }
    ensures ended { OnOk result (GaveAll (S.state source.old) (S.state source.new)
        (λ bytes. HasEnded bytes follower.new)) }
    ensures fault { IfErr result (λ f. FollowFails f (S.state source.old) (S.state source.new)) }
{
    follower.follow(rt, source, piece)?;
    close(rt, follower, gate)?;
    Ok(())
}

// The same, with room for a piece.
fn follow_to_end<R: Threads + Wait + Sync, S: Source, G: Gate + Sync>(
    rt: &R,
    alloc: Global,
    source: &mut S,
    follower: &mut Follower,
    gate: &G,
) -> Result<(), Fault>
    requires first { follower.old ≡ unfed }
    requires sound { CanBeUsed (S.state source.old) }
    ensures works { OnOk result (Works (S.state source.old) (S.state source.new)
        × (follower.new.fault ≡ None)) }
    ensures ended { OnOk result (GaveAll (S.state source.old) (S.state source.new)
        (λ bytes. HasEnded bytes follower.new)) }
    ensures fault { IfErr result (λ f. FollowFails f (S.state source.old) (S.state source.new)) }
{
    let mut piece = vec![in alloc; 0u8; PIECE]?;
    follow_in_pieces(rt, source, piece.as_mut_slice(), follower, gate)
}

// Compares two Followers. Each has followed a feed to its end.
fn compare_ended(one: &Follower, other: &Follower) -> Result<Agreed, CompareStop>
    requires one { one.now.fault ≡ None }
    requires other { other.now.fault ≡ None }
    ensures agree { IfOk result (FollowersAgree one.now other.now) }
    ensures stop { IfErr result (IsDifferOf one.now other.now) }
{
    match one.compare(other) {
        Ok(agreed) => Ok(agreed),
        Err(differ) => Err(CompareStop::Differ(differ)),
    }
}

// Compares what was followed to its end with the feed of another source, which another Follower follows.
fn compare_with<R: Threads + Wait + Sync, S: Source, G: Gate + Sync>(
    rt: &R,
    alloc: Global,
    one: &Follower,
    source: &mut S,
    other: &mut Follower,
    gate: &G,
) -> Result<Agreed, CompareStop>
    requires works { one.now.fault ≡ None }
    requires other { other.old ≡ unfed }
    requires sound { CanBeUsed (S.state source.old) }
    ensures agree { IfOk result (FollowersAgree one.now other.new) }
    ensures ended { OnOk result (GaveAll (S.state source.old) (S.state source.new)
        (λ bytes. HasEnded bytes other.new)) }
    ensures sound { OnOk result (Works (S.state source.old) (S.state source.new)) }
    ensures stop { IfErr result (λ e. ComparisonStopsWith e one.now
        (S.state source.old) (S.state source.new)) }
{
    match follow_to_end(rt, alloc, source, other, gate) {
        Ok(()) => compare_ended(one, other),
        Err(fault) => Err(CompareStop::Second(fault)),
    }
}

// What was found of two Followers that agree so far. Each has followed a feed to its end.
fn found_of(
    one: &Follower,
    other: &Follower,
    agreed: Agreed,
    strict: bool,
) -> Result<Compared, Differ>
    requires agree { FollowersAgree one.now other.now agreed }
    requires ended { BothHaveEnded one.now other.now }
    ensures found { IfOk result (λ c. OfEnded one.now other.now (λ f g. FeedsCompared strict f g c)) }
    ensures memory { IfErr result (λ d. d ≡ differ.Memory) }
{
    let first = one.missing();
    let second = other.missing();
    let first_flaw = one.flaw_if(strict)?;
    let second_flaw = other.flaw_if(strict)?;
    Ok(Compared {
        agreed,
        first,
        second,
        first_flaw,
        second_flaw,
    })
}

// Compares the feeds of two sources, each with a Follower of its own.
fn compare_both<R: Threads + Wait + Sync, S: Source, T: Source, G: Gate + Sync>(
    rt: &R,
    alloc: Global,
    first: &mut S,
    second: &mut T,
    one: &mut Follower,
    other: &mut Follower,
    gate: &G,
    strict: bool,
) -> Result<Compared, CompareStop>
    requires first { CanBeUsed (S.state first.old) }
    requires second { CanBeUsed (T.state second.old) }
    requires one { one.old ≡ unfed }
    requires other { other.old ≡ unfed }
    ensures agree { IfOk result (λ c. BothGave
        (sources (S.state first.old) (T.state second.old))
        (sources (S.state first.new) (T.state second.new)) (λ f g. FeedsCompared strict f g c)) }
    ensures sound { OnOk result (BothWork
        (sources (S.state first.old) (T.state second.old))
        (sources (S.state first.new) (T.state second.new))) }
    ensures stop { IfErr result (λ e. ComparisonStops e
        (sources (S.state first.old) (T.state second.old))
        (sources (S.state first.new) (T.state second.new))) }
{
    match follow_to_end(rt, alloc, first, one, gate) {
        Ok(()) => {
            let agreed = compare_with(rt, alloc, one, second, other, gate)?;
            match found_of(one, other, agreed, strict) {
                Ok(compared) => Ok(compared),
                Err(differ) => Err(CompareStop::Differ(differ)),
            }
        }
        Err(fault) => Err(CompareStop::First(fault)),
    }
}

/// Reads two feeds, the first one first, executes the order of each, and compares what they come to.
///
/// Where both have one version, committee and genesis and their frames together have neither a collision nor twins, the
/// order of one begins that of the other and so do the receipts: the answer says how far, at which missing batch each
/// order stops and, where `strict` is set, what keeps each feed from counting whole. A collision or twins are those of
/// both feeds together, be they in one of them alone.
pub fn compare_with_gaps<R: Threads + Wait + Sync, S: Source, T: Source, G: Gate + Sync>(
    rt: &R,
    alloc: Global,
    first: &mut S,
    second: &mut T,
    settings: Settings,
    gate: &G,
    strict: bool,
) -> Result<Compared, CompareStop>
    requires first { CanBeUsed (S.state first.old) }
    requires second { CanBeUsed (T.state second.old) }
    ensures agree { IfOk result (λ c. BothGave
        (sources (S.state first.old) (T.state second.old))
        (sources (S.state first.new) (T.state second.new)) (λ f g. FeedsCompared strict f g c)) }
    ensures sound { OnOk result (BothWork
        (sources (S.state first.old) (T.state second.old))
        (sources (S.state first.new) (T.state second.new))) }
    ensures stop { IfErr result (λ e. ComparisonStops e
        (sources (S.state first.old) (T.state second.old))
        (sources (S.state first.new) (T.state second.new))) }
{
    let Settings { workers, key } = settings;
    let mut one = Follower::new(alloc, Settings { workers, key });
    let mut other = Follower::new(alloc, Settings { workers, key });
    let compared = compare_both(rt, alloc, first, second, &mut one, &mut other, gate, strict);
    one.discard();
    other.discard();
    compared
}
