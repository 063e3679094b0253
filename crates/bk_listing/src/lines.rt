//! The text of lines.

ghost use Rattle.std.specs.Prelude.{◌≡◌, ◌+◌, ◌<◌, ◌^◌, ◌++◌, ◌∷◌, [], codes, length, OnOk, None, Some};
ghost use Rattle.std.specs.List.{AllZip, flat_map};
ghost use Rattle.hex.specs.Hex.{encode_lower};
ghost use Rattle.bk_frames.specs.Cutting.{frames_in};
ghost use Rattle.bk_base.specs.Feed.{frame_text};
ghost use Rattle.bk_results.specs.Lines.{spaced};
ghost use Rattle.bk_listing.specs.Listing.{cert_words, committee_words, genesis_words, rule_words, batch_words, line_with};
ghost use Rattle.bk_listing.specs.private.FrameRow.{IsRow, PutsLines, row_words};

use crate::rows::{CertRow, FrameRow};
use bk_base::{Kind, Version};
use bk_certcheck::Rule;
use bk_committee::Committee;
use bk_digest::Digest32;
use itoa::Buffer;
use std::alloc::AllocError;

/// Where a frame stands in its feed.
#[derive(Clone, Copy)]
pub(crate) struct Place {
    /// Its number, from 0.
    pub(crate) index: u64,
    /// The offset of its kind byte.
    pub(crate) offset: u64,
}

// Puts a word, a space and a number.
fn put_number(text: &mut Vec<u8>, word: &[u8], number: u64) -> Result<(), AllocError>
    ensures { OnOk result (text.new.items ≡ text.old.items ++ (word.now ++ spaced number)) }
{
    text.extend_from_slice(word)?;
    text.push(b' ')?;
    text.extend_from_slice(Buffer::new().format(number).as_bytes())?;
    Ok(())
}

// Puts a word that ends in a space, and a digest.
fn put_digest(text: &mut Vec<u8>, word: &[u8], digest: Digest32) -> Result<(), AllocError>
    ensures { OnOk result (text.new.items ≡ text.old.items ++ (word.now ++ encode_lower digest)) }
{
    let mut digits = [0u8; 64];
    // There is room for all 64 digits.
    let _ = hex::encode_to_slice(digest.as_bytes(), &mut digits);
    text.extend_from_slice(word)?;
    text.extend_from_slice(&digits)?;
    Ok(())
}

// Puts what a line says of the committee.
fn put_committee(
    text: &mut Vec<u8>,
    committee: &Committee,
    digest: Digest32,
) -> Result<(), AllocError>
    ensures { OnOk result (text.new.items
        ≡ text.old.items ++ committee_words committee.now digest) }
{
    let version = match committee.version() {
        Version::One => 1,
        Version::Two => 2,
    };
    put_digest(text, b"committee ", digest)?;
    put_number(text, b" version", version)?;
    put_number(text, b" members", committee.n() as u64)?;
    Ok(())
}

// Puts what a line says of the genesis.
fn put_genesis(
    text: &mut Vec<u8>,
    digest: Digest32,
    accounts: usize,
    money: u64,
) -> Result<(), AllocError>
    ensures { OnOk result (text.new.items ≡ text.old.items ++ genesis_words digest accounts money) }
{
    put_digest(text, b"genesis ", digest)?;
    put_number(text, b" accounts", accounts as u64)?;
    put_number(text, b" money", money)?;
    Ok(())
}

// Puts what a line says of a certificate before the verdict.
fn put_cert(text: &mut Vec<u8>, row: &CertRow) -> Result<(), AllocError>
    ensures { OnOk result (text.new.items ≡ text.old.items ++ cert_words row.now) }
{
    put_digest(text, b" ", row.id)?;
    put_number(text, b" round", row.round as u64)?;
    put_number(text, b" author", row.author as u64)?;
    put_number(text, b" batches", row.batches as u64)?;
    put_number(text, b" parents", row.parents as u64)?;
    put_number(text, b" signers", row.signers as u64)?;
    Ok(())
}

// Puts a verdict.
fn put_rule(text: &mut Vec<u8>, rule: Option<Rule>) -> Result<(), AllocError>
    ensures { OnOk result (text.new.items ≡ text.old.items ++ rule_words rule) }
{
    match rule {
        Some(rule) => put_number(text, b" broken", u64::from(rule as u8)),
        None => text.extend_from_slice(b" good"),
    }
}

// Puts what a line says of a certificate.
fn put_judged(text: &mut Vec<u8>, row: &CertRow, rule: Option<Rule>) -> Result<(), AllocError>
    ensures { OnOk result (text.new.items
        ≡ text.old.items ++ (codes "cert" ++ cert_words row.now ++ rule_words rule)) }
{
    text.extend_from_slice(b"cert")?;
    put_cert(text, row)?;
    put_rule(text, rule)?;
    Ok(())
}

// Puts what a line says of a batch.
fn put_batch(text: &mut Vec<u8>, digest: Digest32, count: usize) -> Result<(), AllocError>
    ensures { OnOk result (text.new.items ≡ text.old.items ++ batch_words digest (Some count)) }
{
    put_digest(text, b"batch ", digest)?;
    put_number(text, b" transactions", count as u64)?;
    Ok(())
}

// Puts what a line says of a batch that is void.
fn put_void(text: &mut Vec<u8>, digest: Digest32) -> Result<(), AllocError>
    ensures { OnOk result (text.new.items ≡ text.old.items ++ batch_words digest None) }
{
    put_digest(text, b"batch ", digest)?;
    text.extend_from_slice(b" void")?;
    Ok(())
}

// Puts the words of a row.
fn put_words(text: &mut Vec<u8>, committee: &Committee, row: &FrameRow) -> Result<(), AllocError>
    ensures { OnOk result (text.new.items ≡ text.old.items ++ row_words committee.now row.now) }
{
    match row {
        FrameRow::Committee(digest) => put_committee(text, committee, *digest),
        FrameRow::Genesis(digest, accounts, money) => put_genesis(text, *digest, *accounts, *money),
        FrameRow::Malformed => put_number(text, b"cert broken", 0),
        FrameRow::Good(row) => put_judged(text, row, None),
        FrameRow::Broken(row, rule) => put_judged(text, row, Some(*rule)),
        FrameRow::Batch(digest, count) => put_batch(text, *digest, *count),
        FrameRow::Void(digest) => put_void(text, *digest),
    }
}

// Puts the line of a frame that stands at this place, and its line feed.
fn put_line(
    text: &mut Vec<u8>,
    place: Place,
    committee: &Committee,
    row: &FrameRow,
) -> Result<(), AllocError>
    ensures { OnOk result (text.new.items ≡ text.old.items
        ++ (line_with place.index place.offset (row_words committee.now row.now) ++ 10 ∷ [])) }
{
    put_number(text, b"frame", place.index)?;
    put_number(text, b" at", place.offset)?;
    text.push(b' ')?;
    put_words(text, committee, row)?;
    text.push(b'\n')?;
    Ok(())
}

/// Puts the lines of frames with these rows. The first frame is at this place, which is then that of the
/// frame that follows them.
pub(crate) fn put_lines(
    text: &mut Vec<u8>,
    place: &mut Place,
    committee: &Committee,
    frames: &[(Kind, Vec<u8>)],
    rows: &[FrameRow],
) -> Result<(), AllocError>
    requires rows { AllZip (IsRow committee.now) (frames_in frames.now) rows.now }
    requires index { place.old.index + length frames.now < 2 ^ 64 }
    requires offset { place.old.offset
        + length (flat_map frame_text (frames_in frames.now)) < 2 ^ 64 }
    ensures { OnOk result (PutsLines committee.now place.old place.new (frames_in frames.now)
        text.old.items text.new.items) }
{
    for (i, frame) in frames.iter().enumerate() {
        put_line(text, *place, committee, &rows[i])?;
        place.index += 1;
        place.offset += frame.1.len() as u64 + 5;
    }
    Ok(())
}
