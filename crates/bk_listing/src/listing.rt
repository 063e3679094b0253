//! All frames of a source, listed.

ghost use Rattle.std.specs.Prelude.{◌≡◌, ◌<◌, ◌≤◌, ◌++◌, [], ℕ, List, length, None, OnOk, IfOk, IfErr};
ghost use Rattle.bk_frames.specs.declared.pulling.TheConstants.{PIECE};
ghost use Rattle.bk_base.specs.declared.version.Version.{Version};
ghost use Rattle.bk_frames.specs.Cutting.{frames_in};
ghost use Rattle.bk_frames.specs.Device.{CanBeUsed, Device, GaveAll, Works};
ghost use Rattle.bk_base.specs.Feed.{Frame};
ghost use Rattle.bk_results.specs.Devices.{devices};
ghost use Rattle.bk_listing.specs.Answers.{AllIsListed, HasForged, HasRejected, ListFails};
ghost use Rattle.bk_listing.specs.private.Listed.{CanList, EndsBy, HasShown, IsEmptied, LeavesBy, ListsWaiting, WaitingFails};

use crate::lister::Lister;
use bk_base::Kind;
use bk_frames::{Cutter, FeedFault, PIECE, Sink, Source, pull_frames};
use bk_results::{Fault, WrongTag};
use std::alloc::Global;
use std::mem::replace;
use std::thread::Threads;

/// What is found of the frames of a feed that were listed.
#[derive(Clone, Copy, Debug, PartialEq, Eq)]
pub struct Listed {
    /// How many are certificates that break a rule, with those whose bytes are no certificate.
    pub rejected: u64,
    /// The first certificate that is rejected for its tags, and its first signer whose tag is wrong.
    pub forged: Option<WrongTag>,
}

/// The frames of a feed that came and wait to be listed.
#[derive(Drop)]
pub(crate) struct FrameReader {
    cutter: Cutter,
    frames: Vec<(Kind, Vec<u8>)>,
}

// Lists the frames that wait.
fn list_waiting<R: Threads + Sync, K: Sink>(
    rt: &R,
    alloc: Global,
    sink: &mut K,
    reader: &mut FrameReader,
    lister: &mut Lister,
) -> Result<(), Fault>
    requires sound { CanBeUsed (K.state sink.old) }
    requires ready { (taken : List Frame) × (text : List ℕ)
        × CanList taken text reader.old lister.old }
    ensures listed { OnOk result ((taken : List Frame) (text : List ℕ)
        → CanList taken text reader.old lister.old
        → ListsWaiting taken text reader.old lister.new (K.state sink.old) (K.state sink.new)) }
    ensures emptied { IsEmptied reader.old reader.new }
    ensures fault { IfErr result (λ f. (taken : List Frame) (text : List ℕ)
        → CanList taken text reader.old lister.old
        → WaitingFails f taken text reader.old (K.state sink.old) (K.state sink.new)) }
{
    let frames = replace(&mut reader.frames, Vec::new(alloc));
    let Some(version) = reader.cutter.version() else {
        return Ok(());
    };
    lister.list(rt, sink, version, &frames)?;
    Ok(())
}

// Lists the frames that wait before a fault of the feed. Returns the fault, or why they are not listed.
fn list_before<R: Threads + Sync, K: Sink>(
    rt: &R,
    alloc: Global,
    sink: &mut K,
    reader: &mut FrameReader,
    lister: &mut Lister,
    found: FeedFault,
) -> Fault
    requires sound { CanBeUsed (K.state sink.old) }
    requires ready { (taken : List Frame) × (text : List ℕ)
        × CanList taken text reader.old lister.old }
    ensures { (taken : List Frame) (text : List ℕ) → CanList taken text reader.old lister.old
        → LeavesBy found result taken text reader.old lister.new
        (K.state sink.old) (K.state sink.new) }
{
    match list_waiting(rt, alloc, sink, reader, lister) {
        Ok(()) => Fault::Feed(found),
        Err(fault) => fault,
    }
}

// Lists the last frames, after all bytes of the source came.
fn list_last<R: Threads + Sync, K: Sink>(
    rt: &R,
    alloc: Global,
    sink: &mut K,
    reader: &mut FrameReader,
    lister: &mut Lister,
) -> Result<(), Fault>
    requires sound { CanBeUsed (K.state sink.old) }
    requires ready { (taken : List Frame) × (text : List ℕ)
        × CanList taken text reader.old lister.old }
    requires reads { reader.old.cutter.fault ≡ None }
    ensures listed { OnOk result ((taken : List Frame) (text : List ℕ)
        → CanList taken text reader.old lister.old
        → ListsWaiting taken text reader.old lister.new (K.state sink.old) (K.state sink.new)) }
    ensures whole { OnOk result ((reader.old.cutter.kept ≡ []) × (2 ≤ reader.old.cutter.index)) }
    ensures fault { IfErr result (λ f. (taken : List Frame) (text : List ℕ)
        → CanList taken text reader.old lister.old
        → EndsBy f taken text reader.old lister.new (K.state sink.old) (K.state sink.new)) }
{
    list_waiting(rt, alloc, sink, reader, lister)?;
    reader.cutter.end()?;
    Ok(())
}

// Lists all frames of a source. The piece is room for its bytes. What came is listed before more is pulled, which may wait:
// a reader of a pipe sees each frame before the next one comes.
fn list_all<R: Threads + Sync, S: Source, K: Sink>(
    rt: &R,
    alloc: Global,
    source: &mut S,
    sink: &mut K,
    piece: &mut [u8],
    reader: &mut FrameReader,
    lister: &mut Lister,
) -> Result<(), Fault>
    requires source { CanBeUsed (S.state source.old) }
    requires sink { CanBeUsed (K.state sink.old) }
    requires some { 0 < length piece.old }
    requires few { length piece.old ≤ PIECE }
    requires first { HasShown (devices (S.state source.old) (K.state sink.old))
        (devices (S.state source.old) (K.state sink.old)) reader.old lister.old }
    ensures listed { OnOk result (GaveAll (S.state source.old) (S.state source.new)
        (AllIsListed (K.state sink.old) (K.state sink.new))) }
    ensures rejected { OnOk result (GaveAll (S.state source.old) (S.state source.new)
        (HasRejected lister.new.rejected)) }
    ensures forged { OnOk result (GaveAll (S.state source.old) (S.state source.new)
        (HasForged lister.new.forged)) }
    ensures sound { OnOk result (Works (S.state source.old) (S.state source.new)
        × Works (K.state sink.old) (K.state sink.new)) }
    ensures fault { IfErr result (λ f. ListFails f
        (devices (S.state source.old) (K.state sink.old))
        (devices (S.state source.new) (K.state sink.new))) }
{
    // The label names the loop for its proof.
    'pieces: loop {
        let count = match pull_frames(source, piece, &mut reader.cutter, &mut reader.frames) {
            Ok(count) => count,
            Err(found) => return Err(list_before(rt, alloc, sink, reader, lister, found)),
        };
        if count == 0 {
            return list_last(rt, alloc, sink, reader, lister);
        }
        list_waiting(rt, alloc, sink, reader, lister)?;
    }
}

/// Writes a line for each whole frame of a feed that comes before any fault, in the order of the feed, after each pull.
/// Certificates are judged by the local rules of the feed's version. Memory is that of one frame and one piece.
///
/// Returns how many of the frames are certificates that break a rule, with those whose bytes are no certificate; and of
/// the first one that is rejected for its tags, whose tag is wrong.
///
/// Where the feed has a fault, the lines of the whole frames before it are out. Where the sink fails, exactly the first
/// `written` bytes of such lines are.
pub fn list_frames<R: Threads + Sync, S: Source, K: Sink>(
    rt: &R,
    alloc: Global,
    source: &mut S,
    sink: &mut K,
) -> Result<Listed, Fault>
    requires source { CanBeUsed (S.state source.old) }
    requires sink { CanBeUsed (K.state sink.old) }
    ensures listed { OnOk result (GaveAll (S.state source.old) (S.state source.new)
        (AllIsListed (K.state sink.old) (K.state sink.new))) }
    ensures rejected { IfOk result (λ l. GaveAll (S.state source.old) (S.state source.new)
        (HasRejected l.rejected)) }
    ensures forged { IfOk result (λ l. GaveAll (S.state source.old) (S.state source.new)
        (HasForged l.forged)) }
    ensures sound { OnOk result (Works (S.state source.old) (S.state source.new)
        × Works (K.state sink.old) (K.state sink.new)) }
    ensures fault { IfErr result (λ f. ListFails f
        (devices (S.state source.old) (K.state sink.old))
        (devices (S.state source.new) (K.state sink.new))) }
{
    let mut piece = vec![in alloc; 0u8; PIECE]?;
    let mut reader = FrameReader {
        cutter: Cutter::new(alloc),
        frames: Vec::new(alloc),
    };
    let mut lister = Lister::new(alloc);
    list_all(
        rt,
        alloc,
        source,
        sink,
        piece.as_mut_slice(),
        &mut reader,
        &mut lister,
    )?;
    Ok(Listed {
        rejected: lister.rejected,
        forged: lister.forged,
    })
}
