ghost use Rattle.std.specs.Prelude.{◌≡◌, ◌≢◌, ◌≤◌, ◌<◌, ◌^◌, ◌+◌, ◌++◌, ℕ, List, All, length, drop, map, option_map, IfOk, IfSome, IfNone, OnOk};
ghost use Rattle.std.specs.Global.{Vec};
ghost use Rattle.bk_tx.specs.Spelling.{IsBatch, batch_text, text_in_batch};
ghost use Rattle.bk_tx.specs.Batch.{IsWithin, cut, cuts, FollowFrom};
ghost use Rattle.bk_tx.specs.Reading.{text_at, texts_of};

use bk_base::Fields;
use std::alloc::{AllocError, Global};

/// A part of a payload, as a batch's text: `len` bytes from offset `start` on.
#[derive(Clone, Copy, Debug, PartialEq, Eq)]
pub struct Slice {
    /// The offset of its first byte.
    pub start: u32,
    /// How many bytes it has.
    pub len: u32,
}

impl Slice {
    /// Its bytes in the payload.
    pub fn of<'a>(&self, payload: &'a [u8]) -> &'a [u8]
        requires { IsWithin payload.now self.now }
        ensures { result.now ≡ cut payload.now self.now }
    {
        let start = self.start as usize;
        let len = self.len as usize;
        &payload[start..start + len]
    }
}

// The text whose length is at this offset.
fn slice_at(bytes: &[u8], at: usize) -> Option<Slice>
    requires within { at ≤ length bytes.now }
    requires low { at + 2 < 2 ^ 32 }
    ensures found { option_map (λ s. (cut bytes.now s, drop (s.start + s.len) bytes.now)) result
        ≡ text_at (drop at bytes.now) }
    ensures inside { IfSome result (IsWithin bytes.now) }
    ensures place { IfSome result (λ s. (s.start ≡ at + 2) × (s.len < 2 ^ 16)) }
{
    let mut fields = Fields::new(&bytes[at..]);
    let len = fields.u16()?;
    fields.take(len as usize)?;
    Some(Slice {
        start: (at + 2) as u32,
        len: u32::from(len),
    })
}

// Where the texts of a batch lie.
fn batch(alloc: Global, bytes: &[u8]) -> Result<Option<Vec<Slice>>, AllocError>
    ensures exact { IfOk result (λ found.
        option_map (λ slices. cuts bytes.now slices.items) found ≡ texts_of bytes.now) }
    ensures within { IfOk result (λ found.
        IfSome found (λ slices. All (IsWithin bytes.now) slices.items)) }
    ensures places { IfOk result (λ found. IfSome found (λ slices. FollowFrom 2 slices.items)) }
{
    let mut fields = Fields::new(bytes);
    let Some(count) = fields.u16() else {
        return Ok(None);
    };
    let count = count as usize;
    // Each text takes two bytes at least.
    if fields.rest().len() < 2 * count {
        return Ok(None);
    }
    let mut slices = Vec::with_capacity(alloc, count)?;
    let mut at = 2;
    for _ in 0..count {
        let Some(slice) = slice_at(bytes, at) else {
            return Ok(None);
        };
        at = slice.start as usize + slice.len as usize;
        slices.push(slice)?;
    }
    if at < bytes.len() {
        return Ok(None);
    }
    Ok(Some(slices))
}

/// Where the texts of the batch lie that the bytes encode, all of the bytes; nothing where they encode none.
///
/// It reserves for no more texts than the bytes have room for, and an `Err` comes only when memory runs out.
pub fn read_batch(alloc: Global, bytes: &[u8]) -> Result<Option<Vec<Slice>>, AllocError>
    ensures exact { IfOk result (λ found.
        option_map (λ slices. cuts bytes.now slices.items) found ≡ texts_of bytes.now) }
    ensures within { IfOk result (λ found.
        IfSome found (λ slices. All (IsWithin bytes.now) slices.items)) }
    ensures places { IfOk result (λ found. IfSome found (λ slices. FollowFrom 2 slices.items)) }
    ensures found { IfOk result (λ found. IfSome found (λ slices.
        IsBatch (cuts bytes.now slices.items) × (bytes.now ≡ batch_text (cuts bytes.now slices.items)))) }
    ensures void { IfOk result (λ found. IfNone found
        ((texts : List (List ℕ)) → IsBatch texts → bytes.now ≢ batch_text texts)) }
{
    batch(alloc, bytes)
}

// Writes the length of a text, and then the text, at the end.
fn put_text(out: &mut Vec<u8>, text: &[u8]) -> Result<(), AllocError>
    requires { length text.now < 2 ^ 16 }
    ensures { OnOk result (out.new.items ≡ out.old.items ++ text_in_batch text.now) }
{
    out.extend_from_slice(&(text.len() as u16).to_be_bytes())?;
    out.extend_from_slice(text)
}

// How many bytes the batch of these texts has.
fn batch_len(texts: &[Vec<u8>]) -> usize {
    let mut size: usize = 2;
    for text in texts {
        size = size.saturating_add(text.len()).saturating_add(2);
    }
    size
}

/// The bytes of the batch of these texts. It reserves once.
pub fn write_batch(alloc: Global, texts: &[Vec<u8>]) -> Result<Vec<u8>, AllocError>
    requires { IsBatch (map (λ (text : Vec ℕ). text.items) texts.now) }
    ensures { IfOk result (λ out. out.items ≡ batch_text
        (map (λ (text : Vec ℕ). text.items) texts.now)) }
{
    let mut out = Vec::with_capacity(alloc, batch_len(texts))?;
    out.extend_from_slice(&(texts.len() as u16).to_be_bytes())?;
    for text in texts {
        put_text(&mut out, text.as_slice())?;
    }
    Ok(out)
}
