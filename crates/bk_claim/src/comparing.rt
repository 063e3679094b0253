//! A claim beside the report that it is to be.

ghost use Rattle.std.specs.Prelude.{◌≡◌, ◌≢◌, ◌<◌, ◌≤◌, ◌++◌, length, take, MatchOption, slice_get, slice_range, IfOk, IfErr, IfSome, OnOk};
ghost use Rattle.bk_claim.specs.Claims.{GaveEnough};
ghost use Rattle.bk_claim.specs.private.Finding.{CompareStops, IsFound, line_between, line_from};
ghost use Rattle.bk_frames.specs.Device.{CanBeUsed, Works};

use crate::lines::{begin_line, put_line};
use crate::verdict::ClaimStop;
use bk_frames::{PIECE, Source};
use std::alloc::Global;

/// Where a report and a claim first differ.
#[derive(Drop)]
pub(crate) struct Found {
    /// How many bytes come before, in both.
    pub(crate) at: usize,
    /// The first bytes of the claim's line there, none where it ends there.
    pub(crate) line: Option<Vec<u8>>,
}

// How many bytes come before the first in which these differ, one byte at a time.
fn count_same(one: &[u8], other: &[u8]) -> usize
    ensures one { result ≤ length one.now }
    ensures other { result ≤ length other.now }
    ensures same { take result one.now ≡ take result other.now }
    ensures differ { result < length other.now
        → slice_get one.now result ≢ slice_get other.now result }
{
    let most = one.len().min(other.len());
    for i in 0..most {
        if one[i] != other[i] {
            return i;
        }
    }
    most
}

// The same, faster where the other begins the one.
fn common(one: &[u8], other: &[u8]) -> usize
    ensures one { result ≤ length one.now }
    ensures other { result ≤ length other.now }
    ensures same { take result one.now ≡ take result other.now }
    ensures differ { result < length other.now
        → slice_get one.now result ≢ slice_get other.now result }
{
    if one.starts_with(other) {
        return other.len();
    }
    count_same(one, other)
}

// Puts what follows of a line that a claim is inside of.
fn finish_line<S: Source>(
    line: &mut Vec<u8>,
    claimed: &mut S,
    piece: &mut [u8],
) -> Result<(), ClaimStop>
    requires sound { CanBeUsed (S.state claimed.old) }
    requires some { 0 < length piece.old }
    requires short { length line.old.items ≤ 200 }
    ensures works { OnOk result (Works (S.state claimed.old) (S.state claimed.new)) }
    ensures given { OnOk result (GaveEnough (S.state claimed.old) (S.state claimed.new)
        (λ given. line.new.items ≡ line_from line.old.items given)) }
    ensures stop { IfErr result (λ e. CompareStops e (S.state claimed.old) (S.state claimed.new)) }
{
    // The label names the loop for its proof.
    'pieces: loop {
        let count = claimed.pull(piece)?;
        if count == 0 {
            return Ok(());
        }
        if put_line(line, &piece[..count])? {
            return Ok(());
        }
    }
}

// The first bytes of a claim's line: of that between the bytes before, and these of a piece and all that follow.
fn claimed_line<S: Source>(
    alloc: Global,
    before: &[u8],
    claimed: &mut S,
    piece: &mut [u8],
    from: usize,
    to: usize,
) -> Result<Vec<u8>, ClaimStop>
    requires sound { CanBeUsed (S.state claimed.old) }
    requires some { from < to }
    requires inside { to ≤ length piece.old }
    ensures works { OnOk result (Works (S.state claimed.old) (S.state claimed.new)) }
    ensures given { IfOk result (λ line. GaveEnough (S.state claimed.old) (S.state claimed.new)
        (λ given. line.items ≡ line_between before.now (slice_range piece.old from to ++ given))) }
    ensures stop { IfErr result (λ e. CompareStops e (S.state claimed.old) (S.state claimed.new)) }
{
    let mut line = begin_line(alloc, before)?;
    if !put_line(&mut line, &piece[from..to])? {
        finish_line(&mut line, claimed, piece)?;
    }
    Ok(line)
}

// What is found where a claim ends after this many bytes that are the report's.
fn found_at_end(right: &[u8], at: usize) -> Option<Found>
    requires { at ≤ length right.now }
    ensures found { MatchOption result (take at right.now ≡ right.now)
        (λ f. IsFound right.now (take at right.now) f) }
    ensures inside { IfSome result (λ f. f.at ≤ length right.now) }
{
    if at == right.len() {
        return None;
    }
    let line = None;
    Some(Found { at, line })
}

// Compares with room for a piece.
fn compare_pieces<S: Source>(
    alloc: Global,
    right: &[u8],
    claimed: &mut S,
    piece: &mut [u8],
) -> Result<Option<Found>, ClaimStop>
    requires sound { CanBeUsed (S.state claimed.old) }
    requires some { 0 < length piece.old }
    ensures works { OnOk result (Works (S.state claimed.old) (S.state claimed.new)) }
    ensures given { IfOk result (λ r. GaveEnough (S.state claimed.old) (S.state claimed.new)
        (λ claim. MatchOption r (claim ≡ right.now) (λ f. IsFound right.now claim f))) }
    ensures inside { IfOk result (λ r. IfSome r (λ f. f.at ≤ length right.now)) }
    ensures stop { IfErr result (λ e. CompareStops e (S.state claimed.old) (S.state claimed.new)) }
{
    let mut at = 0;
    // The label names the loop for its proof.
    'pieces: loop {
        let count = claimed.pull(piece)?;
        if count == 0 {
            return Ok(found_at_end(right, at));
        }
        let same = common(&right[at..], &piece[..count]);
        at += same;
        if same < count {
            let line = claimed_line(alloc, &right[..at], claimed, piece, same, count)?;
            let line = Some(line);
            return Ok(Some(Found { at, line }));
        }
    }
}

/// Compares a claim with the report, and finds where they first differ. Nothing more of the claim is read than shows
/// that. The error is `Unread` or memory.
pub(crate) fn compare_claim<S: Source>(
    alloc: Global,
    right: &[u8],
    claimed: &mut S,
) -> Result<Option<Found>, ClaimStop>
    requires sound { CanBeUsed (S.state claimed.old) }
    ensures works { OnOk result (Works (S.state claimed.old) (S.state claimed.new)) }
    ensures given { IfOk result (λ r. GaveEnough (S.state claimed.old) (S.state claimed.new)
        (λ claim. MatchOption r (claim ≡ right.now) (λ f. IsFound right.now claim f))) }
    ensures inside { IfOk result (λ r. IfSome r (λ f. f.at ≤ length right.now)) }
    ensures stop { IfErr result (λ e. CompareStops e (S.state claimed.old) (S.state claimed.new)) }
{
    let mut piece = vec![in alloc; 0u8; PIECE]?;
    compare_pieces(alloc, right, claimed, piece.as_mut_slice())
}
