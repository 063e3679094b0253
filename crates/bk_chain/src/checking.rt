//! The check of a chain.

ghost use Rattle.std.specs.Prelude.{◌≡◌, ◌+◌, ◌≤◌, ◌<◌, length, IfOk, IfErr};
ghost use Rattle.bk_frames.specs.Device.{CanBeUsed};
ghost use Rattle.bk_results.specs.Devices.{devices};
ghost use Rattle.bk_script.specs.Answers.{HasRead};
ghost use Rattle.bk_chain.specs.Chain.{HasVerdict};
ghost use Rattle.bk_chain.specs.Checking.{CheckFailsBy, IsChecked};
ghost use Rattle.bk_chain.specs.private.Walking.{IsNoText, IsUnread};

use crate::fault::ChainFault;
use crate::judging::judge;
use crate::reading::{MOST_LINKS, links_of};
use crate::verdict::{ChainEnd, Verdict, verdict_text};
use bk_frames::{Sink, Source, push_all};
use bk_script::{ScriptFault, read_text};
use std::alloc::Global;

// How many bytes a source is asked for at once, at most.
const PIECE: usize = 65_536;

// The text that a source gives, as far as it is looked at.
fn text_of<S: Source>(
    alloc: Global,
    source: &mut S,
    piece: &mut [u8],
) -> Result<Vec<u8>, ChainFault>
    requires sound { CanBeUsed (S.state source.old) }
    requires piece { 0 < length piece.old }
    ensures text { IfOk result (λ text.
        HasRead MOST_LINKS (S.state source.old) (S.state source.new) text.items) }
    ensures fault { IfErr result (λ e. IsUnread e (S.state source.old) (S.state source.new)) }
{
    match read_text(alloc, source, piece, MOST_LINKS) {
        Ok(text) => Ok(text),
        Err(ScriptFault::Memory) => Err(ChainFault::Memory),
        Err(_) => Err(ChainFault::Read),
    }
}

// The verdict on a text.
fn verdict_on(alloc: Global, text: &[u8]) -> Result<Verdict, ChainFault>
    requires few { length text.now ≤ MOST_LINKS + 1 }
    ensures verdict { IfOk result (HasVerdict text.now) }
    ensures fault { IfErr result (IsNoText text.now) }
{
    let links = links_of(alloc, text)?;
    Ok(judge(&links))
}

/// Reads a text of the lines that `link` writes to its end, each ended by a line feed, which the last one may lack, and
/// writes the verdict on whether they are one chain. O(n).
///
/// Of a text of more than [`MOST_LINKS`] bytes, one byte more than these is read. With every fault but `Write` nothing
/// is written.
pub fn check_chain<S: Source, K: Sink>(
    alloc: Global,
    source: &mut S,
    sink: &mut K,
) -> Result<ChainEnd, ChainFault>
    requires source { CanBeUsed (S.state source.old) }
    requires sink { CanBeUsed (K.state sink.old) }
    ensures verdict { IfOk result (λ end. IsChecked end
        (devices (S.state source.old) (K.state sink.old))
        (devices (S.state source.new) (K.state sink.new))) }
    ensures fault { IfErr result (λ e. CheckFailsBy e
        (devices (S.state source.old) (K.state sink.old))
        (devices (S.state source.new) (K.state sink.new))) }
{
    let mut piece = vec![in alloc; 0u8; PIECE]?;
    let text = text_of(alloc, source, piece.as_mut_slice())?;
    let verdict = verdict_on(alloc, &text)?;
    let shown = verdict_text(alloc, &verdict)?;
    push_all(sink, shown.as_bytes())?;
    Ok(verdict.end())
}
