//! Twins, after which a feed may go on. Their ids were worked out by another program.

use crate::faults::{broken, cut_at, twins};
use crate::feeds::ROUND_ONE_IDS;
use crate::made::{has_digest, made};
use crate::story::{Step, follows};
use anyhow::Result;
use bk_frames::FaultCode;
use bk_results::Fault;
use bk_trial_kit::{Tally, ends_of, frame, part, with_frames};
use std::alloc::Global;
use std::sync::Wait;
use std::thread::Threads;

// Round 2 twice, on each of them, and then round 1 twice.
const PAIRS: &str =
    "members 1\naccount 1 100\naccount 2 50\nbatch b\npay 1 2 30 0\ncert c 2 0 - 3a3c971d52e891f8d1a0ba6c70a85e8441563abdddabd5af38fc6d2c9341e350 0\ncert d 2 0 - afb203aeddb54bba05c780118d206fa2d2a6dc339c542173499c03db2eb8b1c9 0\ncert a 1 0 b - 0\ncert e 1 0 - - 0\n";

// The digest of its feed with the batch at the end.
const PAIRS_DIGEST: &str = "9d71ea638cbcaa63186451ce344e82454145df286d4006290c6c0b9691a8dded";

// The ids of round 2, the least one first.
const ON_EACH: (&str, &str) = (
    "662e19d3a9748d3f3fb43cd38808d1dd265f7c74fd2ab8f3850aa5be4a5d9191",
    "b50535c59d4cc0a53a482502d2c59d97512d21028266cff0323b6a5bbb1306e3",
);

// Member 1 has two certificates of round 2, and member 3 two of round 1.
const OF_FOUR: &str =
    "members 4\ncert a0 1 0 - - 0,1,2\ncert a1 1 1 - - 0,1,2\ncert a2 1 2 - - 0,1,2\ncert a3 1 3 - - 0,1,2\ncert x 2 1 - a0,a1,a2 0,1,2\ncert y 2 1 - a1,a2,a3 0,1,2\ncert z 1 3 ba7816bf8f01cfea414140de5dae2223b00361a396177a9cb410ff61f20015ad - 0,1,2\n";

// The ids of both, the least one first.
const ROUND_TWO: (&str, &str) = (
    "79b6af7bdb9137cba302d9ca129a710c42240a8425661eb9caf5510774ac1479",
    "859fd599cb34e754f416ee3d6d91770a9dd410a4434ae4fd1055c16bc303bb0f",
);

const MEMBER_THREE: (&str, &str) = (
    "45d36dbf5aae44af45a80de6fa5f61754f7267e66687e69bc0d78b6336d2536d",
    "6197e77f436927076b329f1765dcc1471916130fd46f5d7581250dd45c85ce92",
);

// ---- frame by frame

// A frame, and the index of the twins of the frames up to it.
type Shown = (usize, Option<usize>);

// The step after a frame: these twins are shown, or where there are none, nothing is settled.
fn shown<'a>(twins: Option<usize>, all: &'a [Fault]) -> Step<'a> {
    let twins = match twins {
        Some(index) => all.get(index),
        None => None,
    };
    match twins {
        Some(fault) => Step::Stops(fault),
        None => Step::Settles(0),
    }
}

// Where these frames end after the head of the feed.
fn end_of(feed: &[u8], ends: &[usize], frames: &[Shown]) -> u64 {
    let mut end = ends.get(2).copied().unwrap_or(0);
    for (index, _) in frames {
        end = end.saturating_add(frame(feed, ends, *index).len());
    }
    end as u64
}

// Each frame, which comes byte by byte, shows the twins that are wanted; and then a frame of no kind is a fault.
fn put_shown<'a>(
    story: &mut Vec<Step<'a>>,
    (feed, ends): (&'a [u8], &[usize]),
    frames: &[Shown],
    all: &'a [Fault],
    kind: &'a Fault,
) -> Result<()> {
    let head = ends.get(2).copied().unwrap_or(0);
    story.push(Step::Takes(part(feed, 0, head)))?;
    for (index, twins) in frames {
        story.push(Step::TakesEach(frame(feed, ends, *index)))?;
        story.push(shown(*twins, all))?;
    }
    story.push(Step::Refuses(b"\x09", kind))?;
    story.push(Step::Stands(kind))?;
    Ok(())
}

fn is_shown<'x, R>(
    rt: &R,
    feed: (&'x [u8], &[usize]),
    frames: &[Shown],
    all: &'x [Fault],
    kind: &'x Fault,
) -> Result<bool>
where
    R: AllocGlobal + Threads + Wait + Sync,
{
    let mut story = Vec::new(rt.alloc());
    put_shown(&mut story, feed, frames, all, kind)?;
    Ok(follows(rt, 2, &story))
}

fn shows_twins<R>(rt: &R, feed: &[u8], frames: &[Shown], all: &[Fault]) -> Result<bool>
where
    R: AllocGlobal + Threads + Wait + Sync,
{
    let ends = ends_of(rt.alloc(), feed)?;
    let kind = broken(end_of(feed, &ends, frames), FaultCode::Kind);
    is_shown(rt, (feed, &ends), frames, all, &kind)
}

// The pairs, with the batch at the end.
fn pairs(alloc: Global) -> Result<Vec<u8>> {
    let feed = made(alloc, PAIRS)?;
    Ok(with_frames(alloc, &feed, &[3, 4, 5, 6, 2])?)
}

const PAIRS_SHOWN: [Shown; 5] = [
    (2, None),
    (3, Some(0)),
    (4, Some(0)),
    (5, Some(1)),
    (6, Some(1)),
];

const OF_FOUR_SHOWN: [Shown; 4] = [(6, None), (7, Some(0)), (5, Some(0)), (8, Some(1))];

fn try_of_four<R>(rt: &R, tally: &mut Tally) -> Result<()>
where
    R: AllocGlobal + Eprint + Threads + Wait + Sync,
{
    let feed = made(rt.alloc(), OF_FOUR)?;
    let all = [twins(2, 1, ROUND_TWO)?, twins(1, 3, MEMBER_THREE)?];
    let is_right = shows_twins(rt, &feed, &OF_FOUR_SHOWN, &all);
    tally.judge(rt, "twins of four members", is_right);
    Ok(())
}

// Whether the feed that ends one byte after twins, at 285, has the fault of its end, which is kept.
fn is_cut<'x, R>(rt: &R, feed: &'x [u8], twins: &'x Fault) -> bool
where
    R: AllocGlobal + Threads + Wait + Sync,
{
    let cut = cut_at(285);
    let story = [
        Step::Takes(part(feed, 0, 286)),
        Step::SettlesNot(twins),
        Step::Ends(&cut),
        Step::Stands(&cut),
    ];
    follows(rt, 2, &story)
}

fn try_pairs<R>(rt: &R, tally: &mut Tally) -> Result<()>
where
    R: AllocGlobal + Eprint + Threads + Wait + Sync,
{
    let feed = pairs(rt.alloc())?;
    let is_right = has_digest(&feed, PAIRS_DIGEST);
    tally.note(rt, "the feed of two pairs", is_right);
    let all = [twins(2, 0, ON_EACH)?, twins(1, 0, ROUND_ONE_IDS)?];
    let is_right = shows_twins(rt, &feed, &PAIRS_SHOWN, &all);
    tally.judge(rt, "twins of one member", is_right);
    let is_right = is_cut(rt, &feed, &all[0]);
    tally.note(rt, "a feed that ends in a frame after twins", is_right);
    Ok(())
}

/// The least twins are shown however often, and more frames may come, up to a fault of the feed.
pub(crate) fn try_twins<R>(rt: &R, tally: &mut Tally) -> Result<()>
where
    R: AllocGlobal + Eprint + Threads + Wait + Sync,
{
    try_pairs(rt, tally)?;
    try_of_four(rt, tally)
}
