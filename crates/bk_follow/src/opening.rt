//! The first two frames of a feed, and what follows them.

ghost use Rattle.std.specs.Prelude.{◌≡◌, ◌++◌, [], ℕ, List, None, Some, OnOk, IfOk, IsSome, IsTrue, MatchOption};
ghost use Rattle.bk_base.specs.declared.version.Version.{Version};
ghost use Rattle.bk_frames.specs.Cutting.{frames_in};
ghost use Rattle.bk_base.specs.Feed.{Frame};
ghost use Rattle.bk_base.specs.Committee.{is_committee};
ghost use Rattle.bk_base.specs.Genesis.{AreAccounts, is_genesis, rows_of};
ghost use Rattle.bk_committee.specs.Payload.{blamed, committee_of};
ghost use Rattle.bk_follow.specs.Follower.{FollowsBy, StaysSettled};
ghost use Rattle.bk_follow.specs.private.Books.{HasFollowed};
ghost use Rattle.bk_follow.specs.private.Openings.{HeadIsCommittee, HeadIsGenesis, IsFirstOf, IsOpening, OpensFirst, OpensSecond, IsOpened};
ghost use Rattle.bk_follow.specs.private.Gathering.{CanTake, TakesNext};

use crate::book::Book;
use bk_base::{Kind, Row, Version, read_genesis};
use bk_committee::{Bad, Committee};
use bk_order::HashKey;
use std::alloc::{AllocError, Global};
use std::mem::{forget, replace};
use std::thread::Threads;

/// What is made of the frames so far: the committee after frame 0, and the book from frame 1 on.
#[derive(Drop)]
pub(crate) struct Opened {
    /// The key of the tables of the book.
    pub(crate) key: HashKey,
    pub(crate) committee: Option<Committee>,
    pub(crate) book: Option<Book>,
}

// The error of a committee that was not read, though its payload is one: memory was refused.
fn memory_refused(_bad: Bad) -> AllocError
    requires { blamed _bad ≡ None }
{
    AllocError
}

// The committee of frame 0, which the cutter has judged.
fn committee_of(alloc: Global, version: Version, payload: &[u8]) -> Result<Committee, AllocError>
    requires { IsTrue (is_committee version payload.now) }
    ensures { IfOk result (λ committee. committee ≡ committee_of version payload.now) }
{
    match Committee::parse(alloc, version, payload) {
        Ok(committee) => Ok(committee),
        Err(bad) => Err(memory_refused(bad)),
    }
}

// The opening accounts of frame 1, which the cutter has judged.
fn genesis_of(alloc: Global, payload: &[u8]) -> Result<Vec<Row>, AllocError>
    requires { IsTrue (is_genesis payload.now) }
    ensures rows { IfOk result (λ rows. rows_of payload.now ≡ Some rows.items) }
    ensures accounts { IfOk result (λ rows. AreAccounts rows.items) }
{
    let Some(rows) = read_genesis(alloc, payload)? else {
        unreachable!()
    };
    Ok(rows)
}

// The payload of the first of these frames, which is taken out of them.
fn take_first(frames: &mut Vec<(Kind, Vec<u8>)>) -> Option<Vec<u8>>
    ensures { MatchOption result ((frames.old.items ≡ []) × (frames.new.items ≡ [])) (λ payload.
        IsFirstOf payload.items (frames_in frames.old.items) (frames_in frames.new.items)) }
{
    if frames.is_empty() {
        return None;
    }
    let frame = frames.remove(0);
    Some(frame.1)
}

// Reads the committee of frame 0, where that is the next one.
fn open_first(
    alloc: Global,
    version: Version,
    committee: &mut Option<Committee>,
    frames: &mut Vec<(Kind, Vec<u8>)>,
) -> Result<(), AllocError>
    requires { committee.old ≡ None → HeadIsCommittee version (frames_in frames.old.items) }
    ensures { OnOk result (OpensFirst version committee.old (frames_in frames.old.items)
        committee.new (frames_in frames.new.items)) }
{
    if committee.is_some() {
        return Ok(());
    }
    let Some(payload) = take_first(frames) else {
        return Ok(());
    };
    *committee = Some(committee_of(alloc, version, &payload)?);
    Ok(())
}

// The book of a committee and of frame 1, which the cutter has judged.
fn book_of(
    alloc: Global,
    key: HashKey,
    committee: Committee,
    payload: &[u8],
) -> Result<Book, AllocError>
    requires { IsTrue (is_genesis payload.now) }
    ensures { IfOk result (λ b. (second : Frame) → second.payload ≡ payload.now
        → IsOpening committee second b) }
{
    let rows = genesis_of(alloc, payload)?;
    let book = Book::new(alloc, key, committee, rows)?;
    Ok(book)
}

// Puts a book where none is. So nothing is there to be dropped, which would cost proof.
fn put_book(slot: &mut Option<Book>, book: Book)
    requires { slot.old ≡ None }
    ensures { slot.new ≡ Some book }
{
    forget(replace(slot, Some(book)));
}

// Opens the book, where frame 1 is the next one.
fn open_second(
    alloc: Global,
    opened: &mut Opened,
    frames: &mut Vec<(Kind, Vec<u8>)>,
) -> Result<(), AllocError>
    requires none { opened.old.book ≡ None }
    requires head { IsSome opened.old.committee → HeadIsGenesis (frames_in frames.old.items) }
    ensures { OnOk result (OpensSecond opened.old.committee (frames_in frames.old.items)
        opened.new.committee opened.new.book (frames_in frames.new.items)) }
{
    if opened.committee.is_none() {
        return Ok(());
    }
    let Some(payload) = take_first(frames) else {
        return Ok(());
    };
    let Some(committee) = opened.committee.take() else {
        unreachable!()
    };
    let book = book_of(alloc, opened.key, committee, &payload)?;
    put_book(&mut opened.book, book);
    Ok(())
}

// Opens what the first two frames open, where there is no book yet.
fn open(
    alloc: Global,
    version: Version,
    opened: &mut Opened,
    frames: &mut Vec<(Kind, Vec<u8>)>,
) -> Result<(), AllocError>
    requires come { (before : List Frame) × HasFollowed version before
        (frames_in frames.old.items) opened.old.committee opened.old.book }
    ensures opened { OnOk result ((before : List Frame)
        → FollowsBy version before opened.old.committee opened.old.book
        → IsOpened version (before ++ frames_in frames.old.items)
        opened.new.committee opened.new.book (frames_in frames.new.items)) }
    ensures stays { OnOk result (StaysSettled opened.old.book opened.new.book) }
{
    if opened.book.is_some() {
        return Ok(());
    }
    open_first(alloc, version, &mut opened.committee, frames)?;
    open_second(alloc, opened, frames)?;
    Ok(())
}

// Takes the next frames of a feed in this version.
fn take_frames(
    rt: &(impl Threads + Sync),
    alloc: Global,
    version: Version,
    opened: &mut Opened,
    frames: Vec<(Kind, Vec<u8>)>,
) -> Result<(), AllocError>
    requires come { (before : List Frame) × HasFollowed version before
        (frames_in frames.items) opened.old.committee opened.old.book }
    ensures follows { OnOk result ((before : List Frame)
        → FollowsBy version before opened.old.committee opened.old.book
        → FollowsBy version (before ++ frames_in frames.items)
        opened.new.committee opened.new.book) }
    ensures stays { OnOk result (StaysSettled opened.old.book opened.new.book) }
{
    let mut frames = frames;
    open(alloc, version, opened, &mut frames)?;
    let Some(book) = &mut opened.book else {
        return Ok(());
    };
    book.take(rt, frames)?;
    Ok(())
}

/// Takes the next frames. There are none before the version is known.
pub(crate) fn take(
    rt: &(impl Threads + Sync),
    alloc: Global,
    version: Option<Version>,
    opened: &mut Opened,
    frames: Vec<(Kind, Vec<u8>)>,
) -> Result<(), AllocError>
    requires come { CanTake version (frames_in frames.items) opened.old }
    ensures takes { OnOk result (TakesNext version (frames_in frames.items)
        opened.old opened.new) }
    ensures stays { OnOk result (StaysSettled opened.old.book opened.new.book) }
{
    if let Some(version) = version {
        take_frames(rt, alloc, version, opened, frames)?;
    }
    Ok(())
}
