//! The text of a verdict.

ghost use Rattle.std.specs.Prelude.{◌≡◌, ◌≤◌, ◌++◌, length, map, codes, IfOk, OnOk};
ghost use Rattle.bk_claim.specs.Claims.{line_at, line_number, shown_byte, words_or_end};
ghost use Rattle.bk_claim.specs.private.Finding.{found_text, found_words};
ghost use Rattle.bk_results.specs.Lines.{spaced};

use crate::comparing::Found;
use crate::lines::{line_at, line_number};
use itoa::Buffer;
use std::alloc::{AllocError, Global};

// A byte as it is shown.
fn shown_byte(byte: u8) -> u8
    ensures { result ≡ shown_byte byte }
{
    if 32 <= byte && byte <= 126 {
        byte
    } else {
        b'?'
    }
}

// Puts bytes as they are shown.
fn put_shown(text: &mut Vec<u8>, bytes: &[u8]) -> Result<(), AllocError>
    ensures { OnOk result (text.new.items ≡ text.old.items ++ map shown_byte bytes.now) }
{
    for byte in bytes {
        text.push(shown_byte(*byte))?;
    }
    Ok(())
}

// Puts the first line.
fn put_number(text: &mut Vec<u8>, number: u64) -> Result<(), AllocError>
    ensures { OnOk result (text.new.items ≡ text.old.items
        ++ (codes "report differs at line" ++ spaced number ++ codes "\n")) }
{
    text.extend_from_slice(b"report differs at line")?;
    text.push(b' ')?;
    text.extend_from_slice(Buffer::new().format(number).as_bytes())?;
    text.extend_from_slice(b"\n")?;
    Ok(())
}

// Puts the line of the feed's report.
fn put_feed(text: &mut Vec<u8>, right: &[u8], at: usize) -> Result<(), AllocError>
    requires { at ≤ length right.now }
    ensures { OnOk result (text.new.items ≡ text.old.items
        ++ (codes "feed " ++ words_or_end right.now at (line_at right.now at) ++ codes "\n")) }
{
    text.extend_from_slice(b"feed ")?;
    if at < right.len() {
        text.extend_from_slice(line_at(right, at))?;
    } else {
        text.extend_from_slice(b"end")?;
    }
    text.extend_from_slice(b"\n")?;
    Ok(())
}

// Puts the line that is claimed.
fn put_claimed(text: &mut Vec<u8>, found: &Found) -> Result<(), AllocError>
    ensures { OnOk result (text.new.items ≡ text.old.items
        ++ (codes "claimed " ++ found_words found.now.line ++ codes "\n")) }
{
    text.extend_from_slice(b"claimed ")?;
    match &found.line {
        Some(line) => put_shown(text, line)?,
        None => text.extend_from_slice(b"end")?,
    }
    text.extend_from_slice(b"\n")?;
    Ok(())
}

/// The text for what was found.
pub(crate) fn found_text(alloc: Global, right: &[u8], found: &Found) -> Result<Vec<u8>, AllocError>
    requires { found.now.at ≤ length right.now }
    ensures { IfOk result (λ text. text.items ≡ found_text right.now found.now) }
{
    let mut text = Vec::new(alloc);
    put_number(&mut text, line_number(right, found.at))?;
    put_feed(&mut text, right, found.at)?;
    put_claimed(&mut text, found)?;
    Ok(text)
}
