//! Lists that are read one line after another.

ghost use Rattle.std.specs.Prelude.{◌+◌, ◌≤◌, ◌<◌, ◌^◌, length, IfOk, IfErr, Result, ℕ, List};
ghost use Rattle.bk_frames.specs.Device.{CanBeUsed};
ghost use Rattle.bk_script.specs.Listing.{HasList, HasNoList, Lists, listed_within};
ghost use Rattle.bk_script.specs.private.Listing.{HasNoText};
ghost use Rattle.bk_script.specs.Answers.{HasRead};

use crate::fault::ScriptFault;
use crate::making::PIECE;
use crate::reading::{crosses, line_end, read_text};
use bk_frames::Source;
use bk_results::LinesFault;
use std::alloc::Global;

/// A list to which each line of a text may add something.
pub trait LineList: Drop {
    // What contracts see of a list.
    ghost Value: { Type 0 };

    ghost value: { Self → Value };
    // The list with a line more, which has this number; or this number, where the line has a fault.
    ghost with_line: { Value → ℕ → List ℕ → Result Value ℕ };

    /// Takes the line of this number, without its line feed. The fault is that of this line, or `Memory`.
    fn take_line(&mut self, alloc: Global, number: u32, line: &[u8]) -> Result<(), LinesFault>
        ensures { Lists (λ _. value self.new) result
            (with_line (value self.old) number line.now) };
}

// Takes the lines of a text that may have `most` bytes. Of a longer one, these and one byte more are enough.
fn take_text<L: LineList>(
    alloc: Global,
    list: &mut L,
    text: &[u8],
    most: usize,
) -> Result<(), LinesFault>
    requires few { length text.now ≤ most + 1 }
    requires most { most < 2 ^ 31 }
    ensures { Lists (λ _. L.value list.new) result
        (listed_within L.with_line (L.value list.old) most text.now) }
{
    let mut count: u32 = 0;
    let mut start = 0;
    while start < text.len() {
        let end = line_end(text, start);
        let line = count + 1;
        if crosses(text, end, most) {
            return Err(LinesFault::Line { line });
        }
        list.take_line(alloc, line, &text[start..end])?;
        count = line;
        start = end + 1;
    }
    if text.len() > most {
        return Err(LinesFault::Line { line: count });
    }
    Ok(())
}

// The text that a source gives, as far as it is looked at.
fn text_of<S: Source>(
    alloc: Global,
    source: &mut S,
    piece: &mut [u8],
    most: usize,
) -> Result<Vec<u8>, LinesFault>
    requires sound { CanBeUsed (S.state source.old) }
    requires piece { 0 < length piece.old }
    requires most { most < 2 ^ 31 }
    ensures text { IfOk result (λ text.
        HasRead most (S.state source.old) (S.state source.new) text.items) }
    ensures fault { IfErr result (λ e. HasNoText e (S.state source.old) (S.state source.new)) }
{
    match read_text(alloc, source, piece, most) {
        Ok(text) => Ok(text),
        Err(ScriptFault::Memory) => Err(LinesFault::Memory),
        Err(_) => Err(LinesFault::Read),
    }
}

/// Reads the text of a list to its end, and takes its lines in turn. Of a text of more than `most` bytes, one byte more
/// than these is read.
///
/// Lines are counted from 1. The list is O(n) to read, without what its lines take.
pub fn read_list<L: LineList, S: Source>(
    alloc: Global,
    source: &mut S,
    list: L,
    most: usize,
) -> Result<L, LinesFault>
    requires source { CanBeUsed (S.state source.old) }
    requires most { most < 2 ^ 31 }
    ensures list { IfOk result (λ made.
        HasList most (listed_within L.with_line (L.value list) most) (L.value made)
        (S.state source.old) (S.state source.new)) }
    ensures fault { IfErr result (λ e.
        HasNoList most (listed_within L.with_line (L.value list) most) e
        (S.state source.old) (S.state source.new)) }
{
    let mut list = list;
    let mut piece = vec![in alloc; 0u8; PIECE]?;
    let text = text_of(alloc, source, piece.as_mut_slice(), most)?;
    take_text(alloc, &mut list, &text, most)?;
    Ok(list)
}
