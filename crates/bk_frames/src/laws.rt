//! Laws of the definitions, each the contract of a function that does nothing.

ghost use Rattle.std.specs.Prelude.{◌≡◌};
ghost use Rattle.bk_frames.specs.Counting.{inner_of, failures_of, fused_of, left_of, fused};
ghost use Rattle.bk_frames.specs.Laws.{IsFeedOrFault, OneFeed, NoFaultInFeed, OneFault, OneStop, OneCallForMemory, PartIsMeasured};
ghost use Rattle.bk_frames.specs.Laws.{PiecesJoin, BytesSoFar, NoneBeforeMagic, FaultIsTheFeeds, MemoryIsTheFeeds, EndsAsFeed, EndsCutShort, StopsInWhatIsRead, FaultStays, FramesStay};

use crate::counted::Counted;
use crate::device::{Sink, Source};
use crate::fuse::Fuse;
use std::io::{Read, Write};

/// Every byte string is the bytes of exactly one feed, of one version, or has exactly one fault.
pub fn feed_or_fault()
    ensures some { IsFeedOrFault }
    ensures one_feed { OneFeed }
    ensures not_both { NoFaultInFeed }
    ensures one_fault { OneFault }
{}

/// What a source has given determines the one offset of the frame that was being read: where it failed, and where
/// memory was refused. Of a part of a frame its kind and its length are known.
pub fn one_frame_was_read()
    ensures failed { OneStop }
    ensures refused { OneCallForMemory }
    ensures measured { PartIsMeasured }
{}

/// Pieces that came in turn are one piece: it does not matter how a feed was cut into pieces.
pub fn pieces_join()
    ensures { PiecesJoin }
{}

/// What all bytes so far are: the magic, the frames handed out and what is kept.
pub fn whole_frames_so_far()
    ensures past { BytesSoFar }
    ensures before { NoneBeforeMagic }
    ensures feed { EndsAsFeed }
    ensures stops { StopsInWhatIsRead }
{}

/// A fault that a cutter returns is that of all bytes so far, and the offset where memory ran out is that of a frame.
pub fn fault_is_the_feeds()
    ensures shown { FaultIsTheFeeds }
    ensures memory { MemoryIsTheFeeds }
    ensures cut_short { EndsCutShort }
{}

/// What the front of bytes shows, the whole shows: a fault other than that they end too early, and good frames.
pub fn front_and_whole()
    ensures fault { FaultStays }
    ensures frames { FramesStay }
{}

/// A counted reader has the bytes of its reader, known where the reader's are, and its own count of failures.
pub fn counted_source<R: Read>(source: &Counted<R>)
    ensures bytes { (⟦<Counted<R> as Source>⟧.state source.now).bytes
        ≡ R.remaining (inner_of source.now) }
    ensures failures { (⟦<Counted<R> as Source>⟧.state source.now).failures
        ≡ failures_of source.now }
{}

/// A counted writer has the bytes of its writer, known where the writer's are, and its own count of failures.
pub fn counted_sink<W: Write>(sink: &Counted<W>)
    ensures bytes { (⟦<Counted<W> as Sink>⟧.state sink.now).bytes ≡ W.contents (inner_of sink.now) }
    ensures failures { (⟦<Counted<W> as Sink>⟧.state sink.now).failures ≡ failures_of sink.now }
{}

/// A fuse over a source is that source, with one failure more once it has failed a call.
pub fn fused_source<S: Source>(source: &Fuse<S>)
    ensures { ⟦<Fuse<S> as Source>⟧.state source.now
        ≡ fused (S.state (fused_of source.now)) (left_of source.now) }
{}

/// A fuse over a sink is that sink, with one failure more once it has failed a call.
pub fn fused_sink<K: Sink>(sink: &Fuse<K>)
    ensures { ⟦<Fuse<K> as Sink>⟧.state sink.now
        ≡ fused (K.state (fused_of sink.now)) (left_of sink.now) }
{}
