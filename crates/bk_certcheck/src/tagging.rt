//! The second stage: the ids of certificates, and then the tags of their signers.

ghost use Rattle.std.specs.Prelude.{◌≡◌, map, IfOk};
ghost use Rattle.std.specs.List.{flat_map};
ghost use Rattle.bk_cert.specs.Identity.{id_of};
ghost use Rattle.bk_certcheck.specs.private.Stages.{AreLeft, own_tags};

use bk_cert::{CertView, ids_of_bytes, want_tags};
use bk_committee::Committee;
use bk_digest::{Digest32, tags_each};
use std::alloc::{AllocError, Global};

/// The id of each certificate. All are hashed side by side.
pub fn ids_of(alloc: Global, left: &[CertView<'_>]) -> Result<Vec<[u8; 32]>, AllocError>
    ensures { IfOk result (λ ids. ids.items ≡ map (λ c. id_of c.header) left.now) }
{
    let mut headers = Vec::with_capacity(alloc, left.len())?;
    for view in left {
        headers.push(view.header_bytes())?;
    }
    ids_of_bytes(alloc, &headers)
}

/// The tags that the signers of each certificate have under its id, in the order of the certificates. All are hashed
/// side by side.
pub fn tags_of(
    alloc: Global,
    committee: &Committee,
    left: &[CertView<'_>],
    ids: &[[u8; 32]],
) -> Result<Vec<Digest32>, AllocError>
    requires left { AreLeft committee.now left.now }
    requires ids { ids.now ≡ map (λ c. id_of c.header) left.now }
    ensures { IfOk result (λ tags. tags.items ≡ flat_map (own_tags committee.now) left.now) }
{
    let mut wanted = Vec::new(alloc);
    for (k, view) in left.iter().enumerate() {
        want_tags(committee, view.mask(), Digest32::new(ids[k]), &mut wanted)?;
    }
    tags_each(alloc, &wanted)
}
