//! Whether links follow each other.

ghost use Rattle.std.specs.Prelude.{◌≡◌, ◌<◌, ◌^◌, length};
ghost use Rattle.bk_chain.specs.Chain.{IsVerdict, break_of, is_short, same_version};

use crate::link::LinkValue;
use crate::verdict::{Break, Chain, Verdict};
use bk_base::Version;
use bk_results::Status;

fn same_version(one: Version, other: Version) -> bool
    ensures { result ≡ same_version one other }
{
    match one {
        Version::One => match other {
            Version::One => true,
            Version::Two => false,
        },
        Version::Two => match other {
            Version::One => false,
            Version::Two => true,
        },
    }
}

fn is_short(end: Status) -> bool
    ensures { result ≡ is_short end }
{
    match end {
        Status::Whole => false,
        Status::Missing => true,
    }
}

// Why a link does not follow the one before it.
fn break_of(before: &LinkValue, link: &LinkValue) -> Option<Break>
    ensures { result ≡ break_of before.now link.now }
{
    if !same_version(before.version, link.version) {
        return Some(Break::Version);
    }
    if is_short(before.end) {
        return Some(Break::Short);
    }
    if link.opening.as_bytes() == before.closing.as_bytes() {
        None
    } else {
        Some(Break::Opening)
    }
}

// How many transactions a link has: a number of four bytes.
fn work_of(link: &LinkValue) -> u64
    ensures work { result ≡ link.now.transactions }
    ensures few { result < 2 ^ 32 }
{
    u64::from(link.transactions)
}

/// The verdict on links, of which there is one at least. O(n).
pub fn judge(links: &[LinkValue]) -> Verdict
    requires some { 0 < length links.now }
    requires few { length links.now < 2 ^ 32 }
    ensures { IsVerdict links.now result }
{
    let first = links[0];
    let mut last = first;
    let mut transactions = work_of(&first);
    let mut at = 1;
    while at < links.len() {
        let link = links[at];
        if let Some(by) = break_of(&last, &link) {
            let line = at as u64 + 1;
            return Verdict::Broken { line, by };
        }
        transactions += work_of(&link);
        last = link;
        at += 1;
    }
    Verdict::Good(Chain {
        feeds: links.len() as u64,
        opening: first.opening,
        closing: last.closing,
        transactions,
        end: last.end,
    })
}
