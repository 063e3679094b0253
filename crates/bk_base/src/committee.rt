//! The payload of frame 0: the committee.

ghost use Rattle.std.specs.Prelude.{◌≡◌, ◌/◌, length, nat_lt};
ghost use Rattle.std.specs.Int.{w32, from_be_bytes};
ghost use Rattle.std.specs.List.{list_all};
ghost use Rattle.std.specs.Simd.{first_chunks};
ghost use Rattle.bk_base.specs.Committee.{is_committee};

use crate::limits::MOST_MEMBERS;
use crate::version::Version;

// Whether each weight is above 0.
fn weigh_something(weights: &[u8]) -> bool
    ensures { result ≡ list_all (λ w. nat_lt 0 (from_be_bytes w32 w))
        (first_chunks 4 (length weights.now / 4) weights.now) }
{
    let (weights, _) = weights.as_chunks::<4>();
    weights.iter().all(|w| u32::from_be_bytes(*w) > 0)
}

/// Whether the payload is a committee of this version: a count of 1 to 128 members, a key of 32 bytes for each, and in
/// version two a weight of four bytes above 0 for each.
pub fn is_committee_payload(version: Version, payload: &[u8]) -> bool
    ensures { result ≡ is_committee version payload.now }
{
    let [count, bytes @ ..] = payload else {
        return false;
    };
    let n = *count as usize;
    if !(1..=MOST_MEMBERS).contains(count) {
        return false;
    }
    match version {
        Version::One => bytes.len() == 32 * n,
        Version::Two => bytes.len() == 36 * n && weigh_something(&bytes[32 * n..]),
    }
}
