//! The feed of a script: its text is read whole, its lines are taken in turn, and the feed is written.

ghost use Rattle.std.specs.Prelude.{◌≡◌, ◌+◌, ◌≤◌, ◌<◌, ◌^◌, length, OnOk, IfOk, IfErr};
ghost use Rattle.bk_frames.specs.Device.{CanBeUsed, Works};
ghost use Rattle.bk_results.specs.Devices.{OfText};
ghost use Rattle.bk_script.specs.Answers.{FailsBy, IsMade, devices};
ghost use Rattle.bk_script.specs.Listing.{lines_of};
ghost use Rattle.bk_script.specs.Script.{feed_after, feed_within, judged_in, known_within};
ghost use Rattle.bk_script.specs.private.Agreeing.{IsFeedFrom, IsNoFeedFrom, Agrees};

use crate::fault::{ScriptCode, ScriptFault, Stop};
use crate::reading::{crosses, line_end, read_text};
use crate::script::Script;
use bk_frames::{Sink, Source, push_all};
use std::alloc::Global;

/// The most bytes that the text of a script may have.
pub const MOST_SCRIPT: usize = 16_777_216;

/// How many bytes a source is asked for at once, at most. The language has no such number.
pub(crate) const PIECE: usize = 65_536;

// Takes the line of this number.
fn take_line(script: &mut Script, number: u64, line: &[u8]) -> Result<(), ScriptFault>
    ensures { Agrees (λ _. script.new) result (judged_in script.old number line.now) }
{
    match script.take(line) {
        Ok(()) => Ok(()),
        Err(Stop::Code(code)) => Err(ScriptFault::Script { line: number, code }),
        Err(Stop::Memory) => Err(ScriptFault::Memory),
    }
}

// Takes the lines of a text that may have `most` bytes, and returns how many there are.
fn take_text(script: &mut Script, text: &[u8], most: usize) -> Result<u64, ScriptFault>
    requires few { length text.now ≤ most + 1 }
    requires most { most < 2 ^ 31 }
    ensures known { Agrees (λ _. script.new) result (known_within script.old most text.now) }
    ensures count { IfOk result (λ lines. (lines ≡ length (lines_of text.now)) × (lines < 2 ^ 32)) }
{
    let mut count = 0;
    let mut start = 0;
    while start < text.len() {
        let end = line_end(text, start);
        let line = count + 1;
        if crosses(text, end, most) {
            let code = ScriptCode::Range;
            return Err(ScriptFault::Script { line, code });
        }
        take_line(script, line, &text[start..end])?;
        count = line;
        start = end + 1;
    }
    if text.len() > most {
        let code = ScriptCode::Range;
        return Err(ScriptFault::Script { line: count, code });
    }
    Ok(count)
}

// The feed of what is known after this many lines.
fn feed_after(script: &mut Script, lines: u64) -> Result<Vec<u8>, ScriptFault>
    requires { lines < 2 ^ 32 }
    ensures { Agrees (λ feed. feed.items) result (feed_after lines script.old) }
{
    script.close()?;
    match script.feed()? {
        Some(feed) => Ok(feed),
        None => {
            let line = lines + 1;
            let code = ScriptCode::Place;
            Err(ScriptFault::Script { line, code })
        }
    }
}

/// The feed of a text that may have `most` bytes. Of a longer one, these and one byte more are enough.
#[tactic(auto, unfolding(crate::specs::Script::feed_within))]
pub(crate) fn feed_within(alloc: Global, text: &[u8], most: usize) -> Result<Vec<u8>, ScriptFault>
    requires few { length text.now ≤ most + 1 }
    requires most { most < 2 ^ 31 }
    ensures { Agrees (λ feed. feed.items) result (feed_within most text.now) }
{
    let mut script = Script::new(alloc)?;
    let lines = take_text(&mut script, text, most)?;
    feed_after(&mut script, lines)
}

// The feed of the script that a source gives, whose text may have `most` bytes.
fn feed_from<S: Source>(
    alloc: Global,
    source: &mut S,
    piece: &mut [u8],
    most: usize,
) -> Result<Vec<u8>, ScriptFault>
    requires sound { CanBeUsed (S.state source.old) }
    requires piece { 0 < length piece.old }
    requires most { most < 2 ^ 31 }
    ensures feed { IfOk result (λ feed.
        IsFeedFrom most (S.state source.old) (S.state source.new) feed.items) }
    ensures fault { IfErr result (λ e.
        IsNoFeedFrom most e (S.state source.old) (S.state source.new)) }
{
    let text = read_text(alloc, source, piece, most)?;
    let feed = feed_within(alloc, &text, most)?;
    Ok(feed)
}

/// Reads the text of a script to its end and writes the feed that it makes. O(n) in the bytes of both, and besides
/// O(n log n) in how many names and accounts there are.
///
/// Of a text of more than [`MOST_SCRIPT`] bytes, one byte more than these is read. With every fault but `Write` nothing
/// is written.
pub fn make<S: Source, K: Sink>(
    alloc: Global,
    source: &mut S,
    sink: &mut K,
) -> Result<(), ScriptFault>
    requires source { CanBeUsed (S.state source.old) }
    requires sink { CanBeUsed (K.state sink.old) }
    ensures feed { OnOk result (OfText MOST_SCRIPT (S.state source.old) (S.state source.new)
        (λ text. IsMade text (K.state sink.old) (K.state sink.new))) }
    ensures sound { OnOk result (Works (S.state source.old) (S.state source.new)
        × Works (K.state sink.old) (K.state sink.new)) }
    ensures fault { IfErr result (λ e. FailsBy e (devices (S.state source.old) (K.state sink.old))
        (devices (S.state source.new) (K.state sink.new))) }
{
    let mut piece = vec![in alloc; 0u8; PIECE]?;
    let feed = feed_from(alloc, source, piece.as_mut_slice(), MOST_SCRIPT)?;
    push_all(sink, &feed)?;
    Ok(())
}
