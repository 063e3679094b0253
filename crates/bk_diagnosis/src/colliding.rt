//! The ids and the digests that collide.

ghost use Rattle.std.specs.Prelude.{◌≡◌, ◌≢◌, ℕ, ◌<◌, ◌↔◌, List, [], Contains, IsTrue, Some, IfOk, OnOk, length, not, slice_index_or};
ghost use Rattle.bk_cert.specs.Equality.{header_eq};
ghost use Rattle.bk_evidence.specs.Batches.{Batch, payload_of};
ghost use Rattle.bk_evidence.specs.Collisions.{id_cmp};
ghost use Rattle.bk_cert.specs.Node.{Node};
ghost use Rattle.bk_order.specs.Stops.{CollidesIn};
ghost use Rattle.bk_diagnosis.specs.Evidence.{ListsIds};
ghost use Rattle.bk_diagnosis.specs.private.Colliding.{ListsSome, HasEach, IsOtherBatch, IsOtherCert};

use bk_cert::SharedCert;
use bk_digest::Digest32;
use bk_evidence::{BatchRef, Batches, Held};
use std::alloc::{AllocError, Global};
use std::collections::BTreeMap;

/// Each id under which two headers are held, and each digest under which two payloads are stored: each once, ascending.
///
/// It takes O(log n) for each certificate and batch, and memory for a table of the ids.
pub(crate) fn colliding_ids(
    alloc: Global,
    held: &Held,
    stored: &Batches,
) -> Result<Vec<Digest32>, AllocError>
    ensures { IfOk result (λ ids. ListsIds ids.items (CollidesIn held.now stored.now)) }
{
    let mut ids = Vec::new(alloc);
    let certs = held.certs();
    let firsts = index_by_id(alloc, certs)?;
    add_certs(&mut ids, &firsts, certs)?;
    add_batches(&mut ids, stored)?;
    put_in_order(&mut ids);
    Ok(ids)
}

// The index of a certificate with each id.
fn index_by_id(alloc: Global, certs: &[SharedCert]) -> Result<BTreeMap<Digest32, usize>, AllocError>
    ensures { IfOk result (HasEach certs.now) }
{
    let mut firsts = BTreeMap::new(alloc);
    for index in 0..certs.len() {
        firsts.insert(*certs[index].id(), index)?;
    }
    Ok(firsts)
}

// Adds the id of each certificate that has another header than the one that is found under its id.
fn add_certs(
    ids: &mut Vec<Digest32>,
    firsts: &BTreeMap<Digest32, usize>,
    certs: &[SharedCert],
) -> Result<(), AllocError>
    requires { HasEach certs.now firsts.now }
    ensures { OnOk result (ListsSome (λ (c : Node). c.id) (IsOtherCert certs.now firsts.now) certs.now
        ids.old.items ids.new.items) }
{
    for cert in certs {
        if is_other_cert(firsts, certs, cert) {
            ids.push(*cert.id())?;
        }
    }
    Ok(())
}

// Whether a certificate has another header than the one that is found under its id.
fn is_other_cert(
    firsts: &BTreeMap<Digest32, usize>,
    certs: &[SharedCert],
    cert: &SharedCert,
) -> bool
    requires { HasEach certs.now firsts.now }
    ensures { IsTrue result ↔ IsOtherCert certs.now firsts.now cert.now }
{
    match firsts.get(cert.id()).copied() {
        None => false,
        Some(index) => has_other_header(cert_at(certs, index), cert),
    }
}

// The certificate at an index.
fn cert_at(certs: &[SharedCert], index: usize) -> &SharedCert
    requires { index < length certs.now }
    ensures { (d : Node) → result.now ≡ slice_index_or certs.now index d }
{
    &certs[index]
}

// Whether two certificates have different headers.
fn has_other_header(one: &SharedCert, other: &SharedCert) -> bool
    ensures { result ≡ not (header_eq one.now.header other.now.header) }
{
    *one.header() != *other.header()
}

// Adds the digest of each batch that has another payload than the first under its digest.
fn add_batches(ids: &mut Vec<Digest32>, stored: &Batches) -> Result<(), AllocError>
    ensures { OnOk result (ListsSome (λ (b : Batch). b.digest) (IsOtherBatch stored.now) stored.now
        ids.old.items ids.new.items) }
{
    for index in 0..stored.len() {
        let batch = BatchRef { index };
        if is_other_batch(stored, batch) {
            ids.push(stored.digest(batch))?;
        }
    }
    Ok(())
}

// Whether a batch has another payload than the first under its digest.
fn is_other_batch(stored: &Batches, batch: BatchRef) -> bool
    requires { batch.index < length stored.now }
    ensures { (d : Batch) → IsTrue result
        ↔ IsOtherBatch stored.now (slice_index_or stored.now batch.index d) }
{
    match stored.get(&stored.digest(batch)) {
        None => false,
        Some(first) => *first != *stored.payload(batch),
    }
}

// Brings ids into their order, each once.
fn put_in_order(ids: &mut Vec<Digest32>)
    ensures { ListsIds ids.new.items (Contains ids.old.items) }
{
    ids.sort_unstable();
    ids.dedup();
}
