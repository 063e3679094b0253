//! The lines of a text.

ghost use Rattle.std.specs.Prelude.{◌≡◌, ◌+◌, ◌≤◌, ◌++◌, List, ℕ, false, if◌then◌else◌, length, not, take, IfOk};
ghost use Rattle.std.specs.List.{position_or_len, suffix_len, after_last};
ghost use Rattle.bk_claim.specs.Claims.{ends_line, line_at, line_number};
ghost use Rattle.bk_claim.specs.private.Finding.{line_from};

use std::alloc::{AllocError, Global};

/// Of a line that is claimed at most this many bytes are shown.
pub(crate) const MOST_SHOWN: usize = 200;

// How many bytes come before the first line feed.
fn line_width(text: &[u8]) -> usize
    ensures is { result ≡ position_or_len ends_line text.now }
    ensures inside { result ≤ length text.now }
{
    for i in 0..text.len() {
        if text[i] == b'\n' {
            return i;
        }
    }
    text.len()
}

// Where the bytes after the last line feed begin.
fn line_start(text: &[u8]) -> usize
    ensures is { result + suffix_len (λ b. not (ends_line b)) text.now ≡ length text.now }
    ensures inside { result ≤ length text.now }
{
    let mut start = text.len();
    while start > 0 && text[start - 1] != b'\n' {
        start -= 1;
    }
    start
}

/// The number of the line of a byte.
pub(crate) fn line_number(text: &[u8], at: usize) -> u64
    requires { at ≤ length text.now }
    ensures { result ≡ line_number text.now at }
{
    let feeds = text[..at].iter().filter(|b| **b == b'\n').count();
    feeds as u64 + 1
}

/// The line of a byte.
pub(crate) fn line_at(text: &[u8], at: usize) -> &[u8]
    requires { at ≤ length text.now }
    ensures { result.now ≡ line_at text.now at }
{
    let start = line_start(&text[..at]);
    let width = line_width(&text[at..]);
    &text[start..at + width]
}

/// The first bytes of the line that goes on behind these bytes.
pub(crate) fn begin_line(alloc: Global, before: &[u8]) -> Result<Vec<u8>, AllocError>
    ensures { IfOk result (λ line. line.items ≡ take 200 (after_last ends_line before.now)) }
{
    let start = line_start(before);
    let end = before.len().min(start + MOST_SHOWN);
    Vec::from_slice(alloc, &before[start..end])
}

/// Puts bytes behind the first bytes of a line, up to its line feed and as far as they are shown. Returns whether no byte
/// that follows belongs to them.
pub(crate) fn put_line(line: &mut Vec<u8>, bytes: &[u8]) -> Result<bool, AllocError>
    requires { length line.old.items ≤ 200 }
    ensures short { length line.new.items ≤ 200 }
    ensures line { IfOk result (λ done. (more : List ℕ) → line_from line.old.items (bytes.now ++ more)
        ≡ (if done then line.new.items else line_from line.new.items more)) }
    ensures nearer { IfOk result (λ done. done ≡ false
        → length line.new.items ≡ length line.old.items + length bytes.now) }
{
    let room = MOST_SHOWN - line.len();
    let put = room.min(line_width(bytes));
    line.extend_from_slice(&bytes[..put])?;
    Ok(put < bytes.len() || put == room)
}
