//! Reading a text of bounded length from a source, and its lines.

ghost use Rattle.std.specs.Prelude.{◌≡◌, ◌+◌, ◌<◌, ◌^◌, ◌==◌, ◌&&◌, nat_lt, length, IfOk, IfErr};
ghost use Rattle.bk_frames.specs.Device.{CanBeUsed};
ghost use Rattle.bk_script.specs.Answers.{HasRead, IsNotRead};
ghost use Rattle.bk_script.specs.private.LineEnds.{IsLine};

use crate::fault::ScriptFault;
use bk_frames::Source;
use std::alloc::Global;

/// Reads a text to its end, or `most` bytes and one more of a longer one.
///
/// The source is asked for pieces of at most the length of `piece`, which is overwritten. Memory follows the bytes that
/// came. The fault is `Read` or `Memory`.
pub fn read_text<S: Source>(
    alloc: Global,
    source: &mut S,
    piece: &mut [u8],
    most: usize,
) -> Result<Vec<u8>, ScriptFault>
    requires sound { CanBeUsed (S.state source.old) }
    requires piece { 0 < length piece.old }
    requires most { most < 2 ^ 32 }
    ensures text { IfOk result (λ text.
        HasRead most (S.state source.old) (S.state source.new) text.items) }
    ensures fault { IfErr result (λ e. IsNotRead e (S.state source.old) (S.state source.new)) }
{
    let mut text: Vec<u8> = Vec::new(alloc);
    while text.len() <= most {
        let want = (most + 1 - text.len()).min(piece.len());
        let count = source.pull(&mut piece[..want])?;
        if count == 0 {
            return Ok(text);
        }
        text.extend_from_slice(&piece[..count])?;
    }
    Ok(text)
}

/// Where the line that begins at `start` ends: before the next line feed, or with the text.
pub(crate) fn line_end(text: &[u8], start: usize) -> usize
    requires { start < length text.now }
    ensures { IsLine text.now start result }
{
    for end in start..text.len() {
        if text[end] == b'\n' {
            return end;
        }
    }
    text.len()
}

/// Whether a text is too long, and the line that ends here is its last one.
pub(crate) fn crosses(text: &[u8], end: usize, most: usize) -> bool
    ensures { result ≡ (nat_lt most (length text.now) && end == length text.now) }
{
    text.len() > most && end == text.len()
}
