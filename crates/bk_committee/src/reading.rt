//! The parts of a committee's payload.

ghost use Rattle.std.specs.Prelude.{◌≡◌, ◌*◌, ◌≤◌, ◌∷◌, length, drop, map, nat_lt, IfOk};
ghost use Rattle.std.specs.Int.{w32, from_be_bytes};
ghost use Rattle.std.specs.List.{list_all};
ghost use Rattle.std.specs.Simd.{first_chunks};
ghost use Rattle.bk_base.specs.Committee.{weights_at};
ghost use Rattle.bk_committee.specs.Payload.{bad_of, bad_weights, member_size, weights_of};

use crate::bad::Bad;
use crate::committee::Member;
use bk_base::Version;
use std::alloc::{AllocError, Global};

// How many bytes a payload has for each member.
fn size_of_member(version: Version) -> usize
    ensures { result ≡ member_size version }
{
    match version {
        Version::One => 32,
        Version::Two => 36,
    }
}

// The bytes of the weights of `count` members.
fn weight_bytes(count: usize, bytes: &[u8]) -> &[[u8; 4]]
    requires count { count ≤ 128 }
    requires whole { length bytes.now ≡ 36 * count }
    ensures { result.now ≡ first_chunks 4 count (drop (32 * count) bytes.now) }
{
    let (weights, _) = bytes[32 * count..].as_chunks::<4>();
    weights
}

fn are_above_zero(pieces: &[[u8; 4]]) -> bool
    ensures { result ≡ list_all (λ four. nat_lt 0 (from_be_bytes w32 four)) pieces.now }
{
    pieces.iter().all(|four| u32::from_be_bytes(*four) > 0)
}

// What is wrong with the weights of `count` members, if one of them is 0.
fn bad_weight(count: usize, bytes: &[u8]) -> Option<Bad>
    requires count { count ≤ 128 }
    requires whole { length bytes.now ≡ 36 * count }
    ensures { result ≡ bad_weights (weights_at count bytes.now) }
{
    if are_above_zero(weight_bytes(count, bytes)) {
        None
    } else {
        Some(Bad::Weight)
    }
}

// What is wrong with a payload of this first byte and these others, if anything is.
pub(crate) fn first_bad(version: Version, count: u8, bytes: &[u8]) -> Option<Bad>
    ensures { result ≡ bad_of version (count ∷ bytes.now) }
{
    if count == 0 || count > 128 {
        return Some(Bad::Count);
    }
    let count = count as usize;
    if bytes.len() != size_of_member(version) * count {
        return Some(Bad::Length);
    }
    match version {
        Version::One => None,
        Version::Two => bad_weight(count, bytes),
    }
}

// The members with the keys that come first.
pub(crate) fn read_members(
    alloc: Global,
    count: usize,
    bytes: &[u8],
) -> Result<Vec<Member>, AllocError>
    requires count { count ≤ 128 }
    requires whole { 32 * count ≤ length bytes.now }
    ensures { IfOk result (λ members. members.items ≡ first_chunks 32 count bytes.now) }
{
    let (keys, _) = bytes[..32 * count].as_chunks::<32>();
    let mut members = Vec::with_capacity(alloc, count)?;
    for key in keys {
        members.push(Member::new(*key))?;
    }
    Ok(members)
}

// The weights of the members: 1 each in version One, and what follows the keys in version Two.
pub(crate) fn read_weights(
    alloc: Global,
    version: Version,
    count: usize,
    bytes: &[u8],
) -> Result<Vec<u32>, AllocError>
    requires count { count ≤ 128 }
    requires whole { length bytes.now ≡ member_size version * count }
    ensures { IfOk result (λ weights. weights.items ≡ weights_of version count bytes.now) }
{
    match version {
        Version::One => vec![in alloc; 1u32; count],
        Version::Two => numbers_of(alloc, weight_bytes(count, bytes)),
    }
}

fn numbers_of(alloc: Global, pieces: &[[u8; 4]]) -> Result<Vec<u32>, AllocError>
    ensures { IfOk result (λ numbers. numbers.items
        ≡ map (λ four. from_be_bytes w32 four) pieces.now) }
{
    let mut numbers = Vec::with_capacity(alloc, pieces.len())?;
    for four in pieces {
        numbers.push(u32::from_be_bytes(*four))?;
    }
    Ok(numbers)
}
