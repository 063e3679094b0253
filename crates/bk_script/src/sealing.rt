//! Certificates sealed by the key rule of a script: the key of member i is 32 bytes of value i + 1.

ghost use Rattle.std.specs.Prelude.{◌≡◌, ◌<◌, ◌≤◌, ◌++◌, ℕ, All, IfOk, OnOk, length, slice_index};
ghost use Rattle.std.specs.List.{concat, flat_map};
ghost use Rattle.std.specs.Int.{w32, to_be_bytes};
ghost use Rattle.bk_script.specs.Sealing.{members_text, member_keys, sealed};

use bk_base::Version;
use bk_cert::{Cert, Header};
use bk_committee::Committee;
use std::alloc::{AllocError, Global};

// Writes the keys of this many members at the end.
fn put_keys(out: &mut Vec<u8>, count: u8) -> Result<(), AllocError>
    requires { count ≤ 128 }
    ensures { OnOk result (out.new.items ≡ out.old.items ++ concat (member_keys count)) }
{
    for member in 0..count {
        out.extend_from_slice(&[member + 1; 32])?;
    }
    Ok(())
}

// Writes weights of four bytes each at the end.
fn put_weights(out: &mut Vec<u8>, weights: &[u32]) -> Result<(), AllocError>
    ensures { OnOk result (out.new.items
        ≡ out.old.items ++ flat_map (to_be_bytes w32) weights.now) }
{
    for weight in weights {
        out.extend_from_slice(&weight.to_be_bytes())?;
    }
    Ok(())
}

/// The payload of a committee of these weights: member i has a key of 32 bytes of value i + 1.
pub(crate) fn members_payload(
    alloc: Global,
    version: Version,
    weights: &[u32],
) -> Result<Vec<u8>, AllocError>
    requires { length weights.now ≤ 128 }
    ensures { IfOk result (λ payload. payload.items ≡ members_text version weights.now) }
{
    let count = weights.len() as u8;
    let mut payload = vec![in alloc; count]?;
    put_keys(&mut payload, count)?;
    match version {
        Version::One => {}
        Version::Two => put_weights(&mut payload, weights)?,
    }
    Ok(payload)
}

/// A committee of 128 members, so that each number that a mask has a bit for has a key.
pub(crate) fn sealer(alloc: Global) -> Result<Committee, AllocError>
    ensures { IfOk result (λ committee. committee.keys ≡ member_keys 128) }
{
    let payload = members_payload(alloc, Version::One, &[1; 128])?;
    match Committee::parse(alloc, Version::One, &payload) {
        Ok(committee) => Ok(committee),
        Err(_) => Err(AllocError),
    }
}

// Nothing is done: each byte is below 256, and the call brings this to the proof.
fn know_bytes(bytes: &[u8])
    ensures { (k : ℕ) → slice_index bytes.now k < 256 }
{
    let _bytes = bytes;
}

/// The payload of the certificate that these members sign.
pub(crate) fn sealed(
    alloc: Global,
    sealer: &Committee,
    header: Header,
    signers: &[u8],
) -> Result<Vec<u8>, AllocError>
    requires rule { sealer.now.keys ≡ member_keys 128 }
    requires signers { All (λ signer. signer < 128) signers.now }
    ensures { IfOk result (λ payload. payload.items ≡ sealed header signers.now) }
{
    let cert = Cert::seal(alloc, header, sealer, signers)?;
    know_bytes(cert.mask().as_bytes());
    let payload = cert.encode(alloc)?;
    Ok(payload)
}
