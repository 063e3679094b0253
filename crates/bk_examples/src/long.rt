//! Texts that are too long for an example: a claim of a long line, and a long report.

use crate::devices::{Given, all_good, feed_alone, job_with};
use crate::failing::{Tried, calls_of};
use crate::made::made;
use crate::outcome::Outcome;
use anyhow::{Result, bail};
use bk_base::Workers;
use bk_cli::Job;
use std::alloc::Global;
use std::fs;
use std::rt::Files;
use std::sync::Wait;
use std::thread::Threads;
use std::time::Clock;

// How many bytes the last line of a claim has that is longer than any line of a report.
const LONG: usize = 1 << 24;

// The verdict on the report of `order/one_commit.feed`, which has ten lines, with one line more.
fn long_verdict(alloc: Global) -> Result<Vec<u8>> {
    let mut text = Vec::from_slice(alloc, b"report differs at line 11\nfeed end\nclaimed ")?;
    let shown = [b'a'; 200];
    text.extend_from_slice(&shown)?;
    text.push(b'\n')?;
    Ok(text)
}

/// Whether a claim is rejected at its last line: it is the report and one line more, of 16 MiB and without a line feed.
pub(crate) fn long_line_is_told<R>(rt: &R) -> Result<bool>
where
    R: AllocGlobal + Clock + Files + Threads + Wait + Sync,
{
    let alloc: Global = rt.alloc();
    let feed = fs::read(rt, "order/one_commit.feed")?;
    let mut claimed = fs::read(rt, "order/one_commit.out")?;
    let more = vec![in alloc; b'a'; LONG]?;
    claimed.extend_from_slice(&more)?;
    let job = Job::CheckReport {
        workers: Workers::one(),
        report: String::new(alloc),
        file: None,
    };
    let given = Given {
        feed: &feed,
        second: &claimed,
    };
    let found = job_with(rt, &job, given, all_good(usize::MAX));
    let wanted = long_verdict(alloc)?;
    Ok(found.status == 1 && found.out.as_slice() == wanted.as_slice() && found.err.is_empty())
}

// ---- a long report

// 2,800 lines of accounts, of 66 bytes each.
fn many_accounts(alloc: Global, first: &str) -> Result<String> {
    let mut text = String::from_str(alloc, first)?;
    for index in 0..2_800u64 {
        let id = index.saturating_add(10_000_000_000_000_000_000);
        text.push_str(&format!(in alloc; "account {id} 1000000000000000 9000000000000000000\n")?)?;
    }
    Ok(text)
}

// The feed of a script with these accounts.
fn long_feed(alloc: Global) -> Result<Vec<u8>> {
    let script = many_accounts(alloc, "members 1\n")?;
    match made(alloc, script.as_bytes()) {
        Ok(feed) => Ok(feed),
        Err(_) => bail!("the script has a fault"),
    }
}

// What `apply` has to leave of it: the accounts, and a line of 26 bytes more.
fn long_report(alloc: Global) -> Result<Outcome> {
    let mut text = many_accounts(alloc, "")?;
    text.push_str("money 2800000000000000000\n")?;
    Ok(Outcome {
        status: 0,
        out: text.into_bytes(),
        err: Vec::new(alloc),
    })
}

// Whether an answer takes at least `least` calls of a sink that takes at most `most` bytes a call, and each fails well.
fn takes_calls<R>(rt: &R, tried: Tried<'_>, most: usize, least: usize) -> bool
where
    R: AllocGlobal + Clock + Threads + Wait + Sync,
{
    match calls_of(rt, tried, most) {
        Some(calls) => least <= calls,
        None => false,
    }
}

fn is_long_report<R>(rt: &R, feed: &[u8]) -> Result<bool>
where
    R: AllocGlobal + Clock + Threads + Wait + Sync,
{
    let whole = long_report(rt.alloc())?;
    let job = Job::Apply { file: None };
    let tried = Tried {
        job: &job,
        given: feed_alone(feed),
        whole: &whole,
    };
    Ok(
        whole.out.len() == 184_826
            && takes_calls(rt, tried, usize::MAX, 3)
            && takes_calls(rt, tried, 40_000, 5),
    )
}

/// Whether a report of 184,826 bytes takes three writes at least, and five of at most 40,000 bytes, each of which fails well.
pub(crate) fn long_report_is_written<R>(rt: &R) -> Result<bool>
where
    R: AllocGlobal + Clock + Threads + Wait + Sync,
{
    let feed = long_feed(rt.alloc())?;
    is_long_report(rt, &feed)
}
