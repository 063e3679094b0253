//! What is found of the frames of a part: its certificates are judged together, and its batches are
//! hashed together.

ghost use Rattle.std.specs.Prelude.{◌≡◌, ◌++◌, ◌∷◌, [], ◌<◌, IfOk, OnOk, length, map};
ghost use Rattle.std.specs.List.{AllZip};
ghost use Rattle.std.specs.Vec.Iter.{into_iter_items};
ghost use Rattle.sha2.specs.Sha256.{sha256};
ghost use Rattle.bk_committee.specs.Payload.{CommitteeValue};
ghost use Rattle.bk_frames.specs.Cutting.{frames_in};
ghost use Rattle.bk_certcheck.specs.Verdicts.{IsVerdict};
ghost use Rattle.bk_certcheck.specs.Frames.{IsFound, batch_in, batches_in, certificate_in, certificates_in, id_in};
ghost use Rattle.bk_certcheck.specs.private.Finding.{CanTakeNext, TakesNext, found_by};

use crate::each::check_each;
use crate::rule::Rule;
use crate::verdict::{Checked, Verdict};
use bk_base::Kind;
use bk_cert::{CertView, id_of_bytes};
use bk_committee::Committee;
use bk_digest::Digest32;
use bk_lanes::digest_each;
use sha2::{Digest, Sha256};
use std::alloc::{AllocError, Global};
use std::vec::IntoIter;

// Lanes are faster than the scalar hasher from about this many busy ones of the eight on.
const FEWEST_BUSY: usize = 5;

/// What is found of a frame whose payload stays where it is.
#[derive(Debug, Drop)]
pub enum Found {
    /// A certificate that breaks no rule.
    Good(Checked),
    /// The least rule that the bytes of a certificate break, and its id where they are one.
    Broken(Rule, Option<Digest32>),
    /// The SHA-256 of a batch.
    Batch(Digest32),
    /// A committee or a genesis.
    Other,
}

// The payloads that a part's frames are judged by.
#[derive(Drop)]
struct Payloads<'a> {
    certificates: Vec<&'a [u8]>,
    batches: Vec<&'a [u8]>,
}

// Adds the payload of a frame to those of its kind.
fn add_payload<'a>(
    payloads: &mut Payloads<'a>,
    frame: &'a (Kind, Vec<u8>),
) -> Result<(), AllocError>
    ensures certificates { OnOk result (map (λ p. p.now) payloads.new.certificates.items
        ≡ map (λ p. p.now) payloads.old.certificates.items
        ++ certificate_in frame.now.0 frame.now.1.items) }
    ensures batches { OnOk result (map (λ p. p.now) payloads.new.batches.items
        ≡ map (λ p. p.now) payloads.old.batches.items
        ++ batch_in frame.now.0 frame.now.1.items) }
{
    match frame.0 {
        Kind::Certificate => payloads.certificates.push(frame.1.as_slice())?,
        Kind::Batch => payloads.batches.push(frame.1.as_slice())?,
        Kind::Committee | Kind::Genesis => {}
    }
    Ok(())
}

// The payloads of the certificates and of the batches, both in the order of the frames.
fn payloads_of(alloc: Global, frames: &[(Kind, Vec<u8>)]) -> Result<Payloads<'_>, AllocError>
    ensures certificates { IfOk result
        (λ out. map (λ p. p.now) out.certificates.items ≡ certificates_in (frames_in frames.now)) }
    ensures batches { IfOk result
        (λ out. map (λ p. p.now) out.batches.items ≡ batches_in (frames_in frames.now)) }
{
    let mut payloads = Payloads {
        certificates: Vec::new(alloc),
        batches: Vec::new(alloc),
    };
    for frame in frames {
        add_payload(&mut payloads, frame)?;
    }
    Ok(payloads)
}

// Whether enough lanes are busy until the longest of these is hashed.
fn do_lanes_pay(batches: &[&[u8]]) -> bool {
    let mut all = 0usize;
    let mut longest = 0usize;
    for bytes in batches {
        all = all.saturating_add(bytes.len());
        longest = longest.max(bytes.len());
    }
    longest <= all / FEWEST_BUSY
}

// The SHA-256 of each batch, one after another.
fn one_by_one(alloc: Global, batches: &[&[u8]]) -> Result<Vec<[u8; 32]>, AllocError>
    ensures { IfOk result (λ out. out.items ≡ map (λ p. sha256 p.now) batches.now) }
{
    let mut out = Vec::with_capacity(alloc, batches.len())?;
    for bytes in batches {
        out.push(Sha256::digest(*bytes))?;
    }
    Ok(out)
}

// The SHA-256 of each batch, in lanes where they are worth it.
fn digests_of(alloc: Global, batches: &[&[u8]]) -> Result<Vec<[u8; 32]>, AllocError>
    ensures { IfOk result (λ out. out.items ≡ map (λ p. sha256 p.now) batches.now) }
{
    let digests = if do_lanes_pay(batches) {
        digest_each(alloc, batches)?
    } else {
        one_by_one(alloc, batches)?
    };
    Ok(digests)
}

// The id of the certificate that the bytes encode.
fn id_in(payload: &[u8]) -> Option<Digest32>
    ensures { result ≡ id_in payload.now }
{
    let view = CertView::of(payload)?;
    Some(id_of_bytes(view.header_bytes()))
}

// What is found of a certificate with these bytes, by the verdict on them.
fn found_by(payload: &[u8], verdict: Verdict) -> Found
    ensures { result ≡ found_by payload.now verdict }
{
    match verdict {
        Verdict::Good(good) => Found::Good(good),
        Verdict::Broken(rule) => Found::Broken(rule, id_in(payload)),
    }
}

// What is found of the next frame, from the verdicts and the digests that are left.
fn next_found(
    frame: &(Kind, Vec<u8>),
    verdicts: &mut IntoIter<Verdict>,
    digests: &mut IntoIter<[u8; 32]>,
) -> Found
    requires { CanTakeNext frame.now.0 (into_iter_items verdicts.old)
        (into_iter_items digests.old) }
    ensures { TakesNext frame.now.0 frame.now.1.items (into_iter_items verdicts.old)
        (into_iter_items verdicts.new) (into_iter_items digests.old)
        (into_iter_items digests.new) result }
{
    match frame.0 {
        Kind::Committee | Kind::Genesis => Found::Other,
        Kind::Certificate => {
            let Some(verdict) = verdicts.next() else {
                unreachable!();
            };
            found_by(&frame.1, verdict)
        }
        Kind::Batch => {
            let Some(digest) = digests.next() else {
                unreachable!();
            };
            Found::Batch(Digest32::new(digest))
        }
    }
}

/// What is found of each frame, in their order, on the calling thread: the certificates are judged together, and the
/// batches are hashed together. Certificates are judged by this committee. It fails only where memory runs out. O(n) in
/// all bytes together.
pub fn find_each(
    alloc: Global,
    committee: &Committee,
    frames: &[(Kind, Vec<u8>)],
) -> Result<Vec<Found>, AllocError>
    ensures { IfOk result
        (λ out. AllZip (IsFound committee.now) (frames_in frames.now) out.items) }
{
    let payloads = payloads_of(alloc, frames)?;
    let mut verdicts = check_each(alloc, committee, &payloads.certificates)?.into_iter();
    let mut digests = digests_of(alloc, &payloads.batches)?.into_iter();
    let mut out = Vec::with_capacity(alloc, frames.len())?;
    for frame in frames {
        out.push(next_found(frame, &mut verdicts, &mut digests))?;
    }
    Ok(out)
}
