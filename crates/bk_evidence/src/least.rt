//! The lesser of two ids, and of two places.

ghost use Rattle.std.specs.Prelude.{◌≡◌};
ghost use Rattle.bk_evidence.specs.Collisions.{id_cmp};
ghost use Rattle.bk_evidence.specs.private.Least.{least_of, lesser_of};
ghost use Rattle.bk_cert.specs.Place.{place_cmp};

use bk_cert::CertRef;
use bk_digest::Digest32;
use std::cmp::Ordering;

/// The lesser of the id that is known, if one is, and one more.
pub(crate) fn least_id(known: Option<Digest32>, id: Digest32) -> Digest32
    ensures { result ≡ least_of id_cmp known id }
{
    match known {
        None => id,
        Some(other) => match id.cmp(&other) {
            Ordering::Less => id,
            Ordering::Equal | Ordering::Greater => other,
        },
    }
}

/// The lesser of two ids, where there are two.
pub(crate) fn lesser_id(one: Option<Digest32>, other: Option<Digest32>) -> Option<Digest32>
    ensures { result ≡ lesser_of id_cmp one other }
{
    match other {
        None => one,
        Some(id) => Some(least_id(one, id)),
    }
}

/// The lesser of the place that is known, if one is, and one more.
pub(crate) fn least_place(known: Option<CertRef>, place: CertRef) -> CertRef
    ensures { result ≡ least_of place_cmp known place }
{
    match known {
        None => place,
        Some(other) => match place.cmp(&other) {
            Ordering::Less => place,
            Ordering::Equal | Ordering::Greater => other,
        },
    }
}
