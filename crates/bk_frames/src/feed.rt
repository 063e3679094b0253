//! A feed that is read whole.

ghost use Rattle.std.specs.Prelude.{◌≡◌, ℕ, ◌<◌, ◌≤◌, List, Some, None, length, IfOk, OnOk, IfErr, IfSome, slice_get};
ghost use Rattle.bk_base.specs.declared.version.Version.{Version};
ghost use Rattle.bk_frames.specs.Cutting.{Cuts, EndsShort, fresh, frames_in};
ghost use Rattle.bk_frames.specs.Device.{CanBeUsed, Works, GaveAll};
ghost use Rattle.bk_base.specs.Feed.{spelling, genesis_of, IsFeed, AreGoodFrom};
ghost use Rattle.bk_base.specs.Genesis.{AreAccounts};
ghost use Rattle.bk_frames.specs.Pulling.{Refuses};
ghost use Rattle.bk_frames.specs.private.Openings.{IsOpening, CallsForAccounts};

use crate::cutter::Cutter;
use crate::device::Source;
use crate::fault::{FaultCode, FeedFault};
use crate::pulling::{PIECE, pull_frames};
use bk_base::{Kind, MOST_ACCOUNTS, Row, Version, read_genesis};
use std::alloc::Global;
use std::marker::Model;

/// A feed that was read whole. Contracts see it as its version and the list of its frames.
#[derive(Debug, Drop)]
pub struct Feed {
    version: Version,
    frames: Vec<(Kind, Vec<u8>)>,
    genesis: Vec<Row>,
}

impl Model for Feed {
    ghost use Rattle.std.specs.Prelude.{◌≡◌};
    ghost use Rattle.bk_frames.specs.Cutting.{frames_in};
    ghost use Rattle.bk_base.specs.Feed.{FeedValue, IsFeed, feed_of, genesis_of};

    ghost Value = { FeedValue };

    ghost view = { λ f. feed_of f.version (frames_in f.frames.items) };

    ghost invariant = { λ f. IsFeed (feed_of f.version (frames_in f.frames.items))
        × (f.genesis.items ≡ genesis_of (frames_in f.frames.items)) };
}

// Reads the opening accounts, once frame 1 is there.
fn read_opening(
    alloc: Global,
    frames: &[(Kind, Vec<u8>)],
    genesis: &mut Option<Vec<Row>>,
) -> Result<(), FeedFault>
    requires good { (version : Version) × AreGoodFrom version 0 4 (frames_in frames.now) }
    requires read { IfSome genesis.old (λ rows. (2 ≤ length (frames_in frames.now))
        × (rows.items ≡ genesis_of (frames_in frames.now))) }
    ensures read { OnOk result (IsOpening (frames_in frames.now) genesis.new) }
    ensures refused { IfErr result (λ f. (genesis.old ≡ None)
        × CallsForAccounts (frames_in frames.now) f) }
{
    if genesis.is_some() || frames.len() < 2 {
        return Ok(());
    }
    match read_genesis(alloc, &frames[1].1) {
        Ok(Some(rows)) => {
            *genesis = Some(rows);
            Ok(())
        }
        Ok(None) => unreachable!(),
        Err(_) => {
            let offset = 9 + frames[0].1.len() as u64;
            let code = FaultCode::Memory;
            Err(FeedFault { offset, code })
        }
    }
}

// The feed of the frames that all bytes of a source made.
fn whole_feed(
    cutter: &Cutter,
    frames: Vec<(Kind, Vec<u8>)>,
    genesis: Option<Vec<Row>>,
) -> Result<Feed, FeedFault>
    requires works { cutter.now.fault ≡ None }
    requires cuts { (bytes : List ℕ) × Cuts fresh bytes (frames_in frames.items) cutter.now }
    requires opening { IsOpening (frames_in frames.items) genesis }
    ensures feed { IfOk result (λ feed. IsFeed feed × ((bytes : List ℕ)
        → Cuts fresh bytes (frames_in frames.items) cutter.now → bytes ≡ spelling feed)) }
    ensures fault { IfErr result (λ f. EndsShort cutter.now f) }
{
    cutter.end()?;
    let Some(version) = cutter.version() else {
        unreachable!()
    };
    let Some(genesis) = genesis else {
        unreachable!()
    };
    Ok(Feed {
        version,
        frames,
        genesis,
    })
}

// Reads a feed to its end, in pieces of at most the length of `piece`.
fn read_in_pieces<S: Source>(
    alloc: Global,
    source: &mut S,
    piece: &mut [u8],
) -> Result<Feed, FeedFault>
    requires sound { CanBeUsed (S.state source.old) }
    requires some { 0 < length piece.old }
    requires few { length piece.old ≤ PIECE }
    ensures feed { IfOk result (λ feed. IsFeed feed
        × GaveAll (S.state source.old) (S.state source.new) (λ bytes. bytes ≡ spelling feed)) }
    ensures sound { OnOk result (Works (S.state source.old) (S.state source.new)) }
    ensures fault { IfErr result (λ f. Refuses f (S.state source.old) (S.state source.new)) }
{
    let mut cutter = Cutter::new(alloc);
    let mut frames = Vec::new(alloc);
    let mut genesis = None;
    // The label names the loop for its proof.
    'pieces: loop {
        let count = pull_frames(source, piece, &mut cutter, &mut frames)?;
        read_opening(alloc, &frames, &mut genesis)?;
        if count == 0 {
            break;
        }
    }
    whole_feed(&cutter, frames, genesis)
}

impl Feed {
    /// Reads a feed to its end. What it reads is asked for in pieces of at most 65,536 bytes.
    ///
    /// The error is the first fault of the bytes with the offset of the frame that has it; `Read` where the source
    /// failed and `Memory` where memory ran out, each with the offset of the frame that was being read.
    pub fn read<S: Source>(alloc: Global, source: &mut S) -> Result<Feed, FeedFault>
        requires { CanBeUsed (S.state source.old) }
        ensures feed { IfOk result (λ feed. IsFeed feed
            × GaveAll (S.state source.old) (S.state source.new) (λ bytes. bytes ≡ spelling feed)) }
        ensures sound { OnOk result (Works (S.state source.old) (S.state source.new)) }
        ensures fault { IfErr result (λ e. Refuses e (S.state source.old) (S.state source.new)) }
    {
        let out_of_memory = FeedFault {
            offset: 0,
            code: FaultCode::Memory,
        };
        let mut piece = vec![in alloc; 0u8; PIECE].map_err(|_| out_of_memory)?;
        read_in_pieces(alloc, source, piece.as_mut_slice())
    }

    /// The version, by the fourth byte.
    pub fn version(&self) -> Version
        ensures { result ≡ self.now.version }
    {
        self.version
    }

    /// How many frames there are: at least two.
    pub fn len(&self) -> usize
        ensures len { result ≡ length self.now.frames }
        ensures feed { IsFeed self.now }
    {
        self.frames.len()
    }

    /// The kind and the payload of a frame. Frame 0 is the committee and frame 1 the genesis.
    pub fn frame(&self, index: usize) -> (Kind, &[u8])
        requires { index < length self.now.frames }
        ensures { slice_get self.now.frames index
            ≡ Some (record { kind = result.0; payload = result.1.now }) }
    {
        let frame = &self.frames[index];
        (frame.0, &frame.1)
    }

    /// The opening accounts, by ascending id.
    pub fn genesis(&self) -> &[Row]
        ensures rows { result.now ≡ genesis_of self.now.frames }
        ensures accounts { AreAccounts result.now }
        ensures few { length result.now ≤ MOST_ACCOUNTS }
    {
        &self.genesis
    }
}
