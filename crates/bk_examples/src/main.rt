//! Runs every example through the program's own `parse_line` and `run_watched`, and compares what is written with a file.
//!
//! The folder that it is run in has the examples and the table `commands`. A run of a feed that names no number of
//! workers is done by 1, 2, 8 and 64, by a Follower that gets the feed in pieces, and with the feed cut. Each job is done
//! over devices that move few bytes a call; and one that has an answer with each read and each write failing in turn, for
//! good and once, and to a sink that takes nothing. Each feed that is made is cut into pieces, and broken; each good proof
//! is changed. The table `unread` has the offsets of reads that fail. A clock of its own makes progress tell. Texts that are
//! no examples come first. What failed is named on standard error, and the last line is `N passed, M failed`.
#![tactic(auto)]

mod applying;
mod cutting;
mod devices;
mod ending;
mod events;
mod example;
mod failing;
mod faults;
mod following;
mod jobs;
mod large_frames;
mod long;
mod longest;
mod made;
mod many;
mod options;
mod outcome;
mod proofs;
mod script_faults;
mod scripts;
mod telling;
mod texts;
mod words;
mod wrong_words;

use crate::cutting::is_cut_well;
use crate::ending::cuts_are_right;
use crate::example::Example;
use crate::following::{Pieces, followed};
use crate::jobs::{try_run, try_words, unread_is_right};
use crate::long::{long_line_is_told, long_report_is_written};
use crate::outcome::{Outcome, outcome_of};
use crate::telling::progress_is_told;
use crate::texts::try_texts;
use anyhow::Result;
use bk_trial_kit::Tally;
use std::fs;
use std::random::RandomSource;
use std::rt::Files;
use std::sync::Wait;
use std::thread::Threads;
use std::time::Clock;

// By how many workers a run is done.
const WORKERS: [&str; 4] = ["1", "2", "8", "64"];

// In which pieces a Follower gets a feed.
const PIECES: [Pieces; 4] = [
    Pieces {
        size: 1,
        settles: false,
    },
    Pieces {
        size: 7,
        settles: false,
    },
    Pieces {
        size: 7,
        settles: true,
    },
    Pieces {
        size: 4_096,
        settles: false,
    },
];

// Runs the command line of an example with these words more.
fn run_words<'a, R>(
    rt: &R,
    example: &Example<'a>,
    more: &[&'a str],
    tally: &mut Tally,
) -> Result<()>
where
    R: AllocGlobal + Files + Input + Eprint + Clock + RandomSource + Threads + Wait + Sync,
{
    let mut words = Vec::from_slice(rt.alloc(), &example.words)?;
    words.extend_from_slice(more)?;
    let found = outcome_of(rt, &words)?;
    let wanted = fs::read(rt, example.wanted)?;
    let is_right = found.status == example.status
        && found.has_printed(&wanted, example.writes_both());
    example.note(rt, "another status or another text", is_right, tally);
    Ok(())
}

// Runs a feed in pieces.
fn run_in_pieces<R>(rt: &R, example: &Example<'_>, feed: &[u8], whole: &Outcome, tally: &mut Tally)
where
    R: AllocGlobal + Clock + Eprint + Threads + Wait + Sync,
{
    for pieces in PIECES {
        let is_right = followed(rt, feed, pieces).is_same(whole);
        example.note(rt, "pieces change the answer", is_right, tally);
    }
}

// Runs a feed in pieces and, if it is good as far as it goes, cut.
fn run_parts<R>(rt: &R, example: &Example<'_>, feed: &[u8], tally: &mut Tally) -> Result<()>
where
    R: AllocGlobal + Files + Input + Eprint + Clock + RandomSource + Threads + Wait + Sync,
{
    let whole = outcome_of(rt, &example.words)?;
    run_in_pieces(rt, example, feed, &whole, tally);
    if whole.status != 2 {
        let is_right = cuts_are_right(rt, feed)?;
        example.note(rt, "a feed that is cut", is_right, tally);
    }
    Ok(())
}

// Runs a feed in each way.
fn run_feed<R>(rt: &R, example: &Example<'_>, tally: &mut Tally) -> Result<()>
where
    R: AllocGlobal + Files + Input + Eprint + Clock + RandomSource + Threads + Wait + Sync,
{
    for count in WORKERS {
        run_words(rt, example, &["--workers", count], tally)?;
    }
    let Ok(feed) = fs::read(rt, example.name) else {
        return Ok(());
    };
    run_parts(rt, example, &feed, tally)?;
    try_run(rt, example, &feed, tally)
}

// Cuts the feed that is made into pieces.
fn cut_made<R>(rt: &R, example: &Example<'_>, tally: &mut Tally) -> Result<()>
where
    R: AllocGlobal + Files + Eprint,
{
    let feed = fs::read(rt, example.wanted)?;
    let is_right = is_cut_well(rt.alloc(), &feed)?;
    example.note(rt, "pieces change the frames", is_right, tally);
    Ok(())
}

// Runs an example in each way that its command has.
fn run_example<R>(rt: &R, example: &Example<'_>, tally: &mut Tally) -> Result<()>
where
    R: AllocGlobal + Files + Input + Eprint + Clock + RandomSource + Threads + Wait + Sync,
{
    if example.has_free_workers() {
        return run_feed(rt, example, tally);
    }
    run_words(rt, example, &[], tally)?;
    if example.command == "make" && example.status == 0 {
        cut_made(rt, example, tally)?;
    }
    try_words(rt, example, tally)
}

// Runs all examples of the table.
fn run_table<R>(rt: &R, tally: &mut Tally) -> Result<()>
where
    R: AllocGlobal + Files + Input + Eprint + Clock + RandomSource + Threads + Wait + Sync,
{
    let table = fs::read_to_string(rt, "commands")?;
    for line in table.lines() {
        let example = Example::of(rt.alloc(), line)?;
        run_example(rt, &example, tally)?;
    }
    Ok(())
}

// Reads chosen texts, and runs all examples, and what is too long for one or is no command line.
fn run_all<R>(rt: &R) -> Result<Tally>
where
    R: AllocGlobal + Files + Input + Eprint + Clock + RandomSource + Threads + Wait + Sync,
{
    let mut tally = Tally::new();
    try_texts(rt, &mut tally)?;
    run_table(rt, &mut tally)?;
    let unread = fs::read_to_string(rt, "unread")?;
    tally.judge(rt, "offsets of reads", unread_is_right(rt, &unread));
    tally.judge(rt, "a claim of a long line", long_line_is_told(rt));
    tally.judge(rt, "a long report", long_report_is_written(rt));
    tally.note(rt, "progress", progress_is_told(rt.alloc()));
    Ok(tally)
}

fn main(rt: HostRuntime) -> Result<()> {
    let tally = run_all(&rt)?;
    tally.report(&rt)
}
