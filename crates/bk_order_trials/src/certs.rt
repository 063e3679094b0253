//! Certificates made in memory.

use anyhow::{Result, bail};
use bk_cert::{Cert, CertRef, Header};
use bk_committee::Committee;
use bk_digest::Digest32;
use std::alloc::Global;

/// What a certificate says.
#[derive(Clone, Copy)]
pub(crate) struct Parts<'a> {
    pub(crate) at: CertRef,
    pub(crate) batches: &'a [Digest32],
    pub(crate) parents: &'a [Digest32],
}

/// A place.
pub(crate) fn place(round: u32, author: u8) -> CertRef {
    CertRef { round, author }
}

/// The header of these parts.
pub(crate) fn header_of(alloc: Global, parts: Parts<'_>) -> Result<Header> {
    let batches = Vec::from_slice(alloc, parts.batches)?;
    let parents = Vec::from_slice(alloc, parts.parents)?;
    match Header::new(parts.at.author, parts.at.round, batches, parents) {
        Some(header) => Ok(header),
        None => bail!("no header"),
    }
}

/// The bytes of a certificate of these parts, sealed by members of a committee.
pub(crate) fn sealed(
    alloc: Global,
    all: &Committee,
    parts: Parts<'_>,
    signers: &[u8],
) -> Result<Vec<u8>> {
    if !signers.iter().all(|signer| (*signer as usize) < all.n()) {
        bail!("no member");
    }
    let header = header_of(alloc, parts)?;
    let cert = Cert::seal(alloc, header, all, signers)?;
    Ok(cert.encode(alloc)?)
}
