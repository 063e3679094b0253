//! What the line of a frame says, but for its number and its offset.

ghost use Rattle.std.specs.Prelude.{◌≡◌, ◌<◌, ◌^◌, ◌∷◌, List, [], ℕ, IfOk, count_by, length};
ghost use Rattle.std.specs.List.{AllZip};
ghost use Rattle.sha2.specs.Sha256.{sha256};
ghost use Rattle.bk_frames.specs.Cutting.{frames_in};
ghost use Rattle.bk_base.specs.Feed.{frame_of};
ghost use Rattle.bk_base.specs.Genesis.{total_of};
ghost use Rattle.bk_base.specs.declared.kind.Kind.{Kind};
ghost use Rattle.bk_committee.specs.Payload.{CommitteeValue};
ghost use Rattle.bk_cert.specs.Identity.{id_of};
ghost use Rattle.bk_certcheck.specs.Frames.{IsFound, id_in};
ghost use Rattle.bk_certcheck.specs.Verdicts.{IsBroken, IsGood};
ghost use Rattle.bk_certcheck.specs.declared.verdict.Verdict.TheVariants as verdict;
ghost use Rattle.bk_listing.specs.Listing.{accounts_in, batch_words, cert_row, judged_words};
ghost use Rattle.bk_listing.specs.private.FrameRow.{IsRow, is_rejected, row_rules, row_words};
ghost use Rattle.bk_listing.specs.declared.rows.FrameRow.TheVariants as shown;
ghost use Rattle.bk_tx.specs.Batches.{count_in};

use bk_base::{Kind, Row, read_genesis};
use bk_cert::CertView;
use bk_certcheck::{Checked, Found, Rule, find_all};
use bk_committee::Committee;
use bk_digest::Digest32;
use bk_tx::read_batch;
use std::alloc::{AllocError, Global};
use std::thread::Threads;

/// What a line says of a certificate before the verdict.
#[derive(Clone, Copy)]
pub struct CertRow {
    /// Its id.
    pub id: Digest32,
    /// Its round.
    pub round: u32,
    /// Its author.
    pub author: u8,
    /// How many batches it names; one that is named twice counts twice.
    pub batches: usize,
    /// How many parents it names.
    pub parents: usize,
    /// How many signers it marks, members or not.
    pub signers: usize,
}

/// What the line of a frame says.
#[derive(Clone, Copy)]
pub(crate) enum FrameRow {
    /// The digest of the committee.
    Committee(Digest32),
    /// The digest of the genesis, how many accounts it has, and their balances added up.
    Genesis(Digest32, usize, u64),
    /// Bytes that are no certificate.
    Malformed,
    /// A certificate that breaks no rule.
    Good(CertRow),
    /// A certificate, and the rule that it breaks first.
    Broken(CertRow, Rule),
    /// The digest of a batch, and how many transactions it holds.
    Batch(Digest32, usize),
    /// The digest of a batch that is void.
    Void(Digest32),
}

// How many batches a certificate names.
fn count_batches(view: &CertView<'_>) -> usize
    ensures { result ≡ length view.now.header.batches }
{
    // The mask is looked at for what it says of the certificate.
    let _mask = view.mask();
    (view.header_bytes().len() - 8) / 32 - view.parents().len()
}

// What a line says of a certificate with this id.
fn cert_row(view: &CertView<'_>, id: Digest32) -> CertRow
    requires { id ≡ id_of view.now.header }
    ensures { result ≡ cert_row view.now }
{
    CertRow {
        id,
        round: view.round(),
        author: view.author(),
        batches: count_batches(view),
        parents: view.parents().len(),
        signers: view.mask().len(),
    }
}

// What a line says of the bytes of a certificate that breaks no rule.
fn good(payload: &[u8], checked: &Checked) -> FrameRow
    requires { (k : CommitteeValue) × IsGood k payload.now checked.now }
    ensures words { (k : CommitteeValue)
        → row_words k result ≡ judged_words payload.now (verdict.Good checked.now) }
    ensures rules { row_rules result ≡ [] }
{
    let Some(view) = CertView::of(payload) else {
        unreachable!()
    };
    FrameRow::Good(cert_row(&view, checked.id()))
}

// What a line says of the bytes of a certificate that break this rule first. It has this id where they are one.
fn broken(payload: &[u8], rule: Rule, id: Option<Digest32>) -> FrameRow
    requires { (k : CommitteeValue) × IsBroken k payload.now rule × (id ≡ id_in payload.now) }
    ensures words { (k : CommitteeValue)
        → row_words k result ≡ judged_words payload.now (verdict.Broken rule) }
    ensures rules { row_rules result ≡ rule ∷ [] }
{
    let Some(view) = CertView::of(payload) else {
        return FrameRow::Malformed;
    };
    let Some(id) = id else { unreachable!() };
    FrameRow::Broken(cert_row(&view, id), rule)
}

// The balances of accounts, added up.
fn money_of(rows: &[Row]) -> u64
    requires { total_of rows.now < 2 ^ 63 }
    ensures { result ≡ total_of rows.now }
{
    rows.iter().map(|row| row.balance).sum()
}

// What a line says of a genesis.
fn genesis(alloc: Global, payload: &[u8]) -> Result<FrameRow, AllocError>
    ensures { IfOk result (λ row. row ≡ shown.Genesis (sha256 payload.now)
        (length (accounts_in payload.now)) (total_of (accounts_in payload.now))) }
{
    let digest = Digest32::of(payload);
    match read_genesis(alloc, payload)? {
        Some(rows) => Ok(FrameRow::Genesis(digest, rows.len(), money_of(&rows))),
        None => Ok(FrameRow::Genesis(digest, 0, 0)),
    }
}

// What a line says of a batch with this digest.
fn batch(alloc: Global, payload: &[u8], digest: Digest32) -> Result<FrameRow, AllocError>
    ensures words { IfOk result (λ row. (k : CommitteeValue)
        → row_words k row ≡ batch_words digest (count_in payload.now)) }
    ensures rules { IfOk result (λ row. row_rules row ≡ []) }
{
    match read_batch(alloc, payload)? {
        Some(slices) => Ok(FrameRow::Batch(digest, slices.len())),
        None => Ok(FrameRow::Void(digest)),
    }
}

// What the line of a frame says, with what was found of it.
fn row_of(alloc: Global, kind: Kind, payload: &[u8], found: &Found) -> Result<FrameRow, AllocError>
    requires { (k : CommitteeValue) × IsFound k (frame_of kind payload.now) found.now }
    ensures { IfOk result (λ row. (k : CommitteeValue)
        → IsFound k (frame_of kind payload.now) found.now
        → IsRow k (frame_of kind payload.now) row) }
{
    match found {
        Found::Good(checked) => Ok(good(payload, checked)),
        Found::Broken(rule, id) => Ok(broken(payload, *rule, *id)),
        Found::Batch(digest) => batch(alloc, payload, *digest),
        Found::Other => match kind {
            Kind::Genesis => genesis(alloc, payload),
            Kind::Committee | Kind::Certificate | Kind::Batch => {
                Ok(FrameRow::Committee(Digest32::of(payload)))
            }
        },
    }
}

// Whether a row is of a frame that is rejected.
fn is_rejected(row: &FrameRow) -> bool
    ensures { result ≡ is_rejected row.now }
{
    match row {
        FrameRow::Malformed | FrameRow::Broken(_, _) => true,
        FrameRow::Committee(_)
        | FrameRow::Genesis(_, _, _)
        | FrameRow::Good(_)
        | FrameRow::Batch(_, _)
        | FrameRow::Void(_) => false,
    }
}

/// How many of these rows are of frames that are rejected.
pub(crate) fn count_rejected(rows: &[FrameRow]) -> usize
    ensures { result ≡ count_by is_rejected rows.now }
{
    rows.iter()
        .filter(
            |row: &&FrameRow| -> bool
                ensures { result ≡ is_rejected row.now.now }
            { is_rejected(*row) },
        )
        .count()
}

// The rows of frames, with what was found of each.
fn rows_of(
    alloc: Global,
    committee: &Committee,
    frames: &[(Kind, Vec<u8>)],
    found: &[Found],
) -> Result<Vec<FrameRow>, AllocError>
    requires { AllZip (IsFound committee.now) (frames_in frames.now) found.now }
    ensures { IfOk result (λ rows. AllZip (IsRow committee.now) (frames_in frames.now) rows.items) }
{
    // The committee is what the frames were judged by.
    let _ = committee;
    let mut rows = Vec::with_capacity(alloc, frames.len())?;
    for (i, frame) in frames.iter().enumerate() {
        let row = row_of(alloc, frame.0, &frame.1, &found[i])?;
        rows.push(row)?;
    }
    Ok(rows)
}

/// The row of each frame. They are judged on as many threads as there are processors.
pub(crate) fn all_rows(
    rt: &(impl Threads + Sync),
    alloc: Global,
    committee: &Committee,
    frames: &[(Kind, Vec<u8>)],
) -> Result<Vec<FrameRow>, AllocError>
    ensures { IfOk result (λ rows. AllZip (IsRow committee.now) (frames_in frames.now) rows.items) }
{
    let found = find_all(rt, alloc, committee, frames)?;
    rows_of(alloc, committee, frames, &found)
}
