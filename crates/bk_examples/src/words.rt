//! Command lines that name a job. Those of examples are left out, but where they tell a number of workers.

use anyhow::Result;
use bk_cli::{Diagnosis, Job, Table, parse_line};
use bk_results::Query;
use bk_trial_kit::Tally;
use std::alloc::Global;

// A command line, its kind, the number of workers of a job that has one, and the two files that it names.
type Named = (
    &'static str,
    Kind,
    Option<usize>,
    Option<&'static str>,
    Option<&'static str>,
);

// The jobs that are named here.
#[derive(Clone, Copy, PartialEq, Eq)]
enum Kind {
    Run,
    Apply,
    Make,
    CheckProof,
    CheckProofOfSeven,
    CheckState,
    Schedule,
    Follow,
    Wait,
    FollowPostings,
    Waiting,
    Other,
}

fn kind_of(job: &Job) -> Kind {
    match job {
        Job::Run { .. } => Kind::Run,
        Job::Apply { .. } => Kind::Apply,
        Job::Make { .. } => Kind::Make,
        Job::CheckProof { account: None, .. } => Kind::CheckProof,
        Job::CheckProof {
            account: Some(7),
            ..
        } => Kind::CheckProofOfSeven,
        Job::Ask {
            asked: Query::State { .. },
            ..
        } => Kind::CheckState,
        Job::Schedule { .. } => Kind::Schedule,
        Job::Follow {
            shown: Table::Postings,
            ..
        } => Kind::FollowPostings,
        Job::Follow { wait: false, .. } => Kind::Follow,
        Job::Follow { wait: true, .. } => Kind::Wait,
        Job::Diagnose {
            sought: Diagnosis::Waiting,
            ..
        } => Kind::Waiting,
        _ => Kind::Other,
    }
}

fn workers_of(job: &Job) -> Option<usize> {
    match job {
        Job::Run { workers, .. }
        | Job::Ask { workers, .. }
        | Job::Schedule { workers, .. }
        | Job::Follow { workers, .. } => Some(workers.count()),
        _ => None,
    }
}

const ROOT: &str = "a0f73141eeeda4cb3f115f1ee0468dde8a3de31db5fd987f0eec1df811bce063";

const NAMED: [Named; 20] = [
    ("bkreplay|run", Kind::Run, Some(1), None, None),
    (
        "bkreplay|run|a b.feed",
        Kind::Run,
        Some(1),
        Some("a b.feed"),
        None,
    ),
    ("bkreplay|run|--workers=1", Kind::Run, Some(1), None, None),
    (
        "bkreplay|run|a b.feed|--workers|64",
        Kind::Run,
        Some(64),
        Some("a b.feed"),
        None,
    ),
    (
        "bkreplay|run|--workers|8|a b.feed",
        Kind::Run,
        Some(8),
        Some("a b.feed"),
        None,
    ),
    ("bkreplay|apply", Kind::Apply, None, None, None),
    ("bkreplay|make", Kind::Make, None, None, None),
    (
        "bkreplay|check-proof|no root",
        Kind::CheckProof,
        None,
        None,
        None,
    ),
    (
        "bkreplay|check-proof|--account|7|no root",
        Kind::CheckProofOfSeven,
        None,
        None,
        None,
    ),
    (
        "bkreplay|check-proof|no root|a|--account=7",
        Kind::CheckProofOfSeven,
        None,
        Some("a"),
        None,
    ),
    (
        "bkreplay|postings|--follow|--workers|3|a",
        Kind::FollowPostings,
        Some(3),
        Some("a"),
        None,
    ),
    ("bkreplay|waiting", Kind::Waiting, None, None, None),
    (
        "bkreplay|schedule|--workers|1|a|b",
        Kind::Schedule,
        Some(1),
        Some("a"),
        Some("b"),
    ),
    (
        "bkreplay|schedule|a|--workers=64|b",
        Kind::Schedule,
        Some(64),
        Some("a"),
        Some("b"),
    ),
    (
        "bkreplay|schedule|-|b",
        Kind::Schedule,
        Some(2),
        Some("-"),
        Some("b"),
    ),
    (
        "bkreplay|check-state|a0f73141eeeda4cb3f115f1ee0468dde8a3de31db5fd987f0eec1df811bce063",
        Kind::CheckState,
        Some(1),
        None,
        None,
    ),
    (
        "bkreplay|check-state|--workers|64|a0f73141eeeda4cb3f115f1ee0468dde8a3de31db5fd987f0eec1df811bce063|a",
        Kind::CheckState,
        Some(64),
        Some("a"),
        None,
    ),
    (
        "bkreplay|transactions|--follow",
        Kind::Follow,
        Some(1),
        None,
        None,
    ),
    (
        "bkreplay|transactions|--accounts|l|--follow|-",
        Kind::Follow,
        Some(1),
        Some("-"),
        Some("l"),
    ),
    (
        "bkreplay|transactions|--wait|--follow|--accounts=l|--workers|3|a",
        Kind::Wait,
        Some(3),
        Some("a"),
        Some("l"),
    ),
];

// Whether the root that a job has is the one of its words.
fn has_root(alloc: Global, job: &Job) -> Result<bool> {
    match job {
        Job::CheckProof { root, .. } => Ok(root.as_str() == "no root"),
        Job::Ask {
            asked: Query::State { root },
            ..
        } => Ok(root.to_hex(alloc)?.as_str() == ROOT),
        _ => Ok(true),
    }
}

// Whether a job is the one that is named.
fn is_wanted(job: &Job, named: &Named) -> bool {
    let (_, kind, workers, first, second) = named;
    kind_of(job) == *kind
        && workers_of(job) == *workers
        && job.file() == *first
        && job.second_file() == *second
}

// Whether words name this job.
fn name_this(alloc: Global, words: &[&str], named: &Named) -> Result<bool> {
    let Ok(line) = parse_line(alloc, words) else {
        return Ok(false);
    };
    Ok(is_wanted(&line.job, named) && has_root(alloc, &line.job)?)
}

/// The words of a command line, with `|` between them, as one may have a space in it.
pub(crate) fn words_of<'a>(alloc: Global, line: &'a str) -> Result<Vec<&'a str>> {
    Ok(line.split('|').collect(alloc)?)
}

fn is_named(alloc: Global, line: &str, named: &Named) -> Result<bool> {
    let words = words_of(alloc, line)?;
    name_this(alloc, &words, named)
}

/// All of them.
pub(crate) fn try_good_words<R: AllocGlobal + Eprint>(rt: &R, tally: &mut Tally) {
    for named in &NAMED {
        tally.judge(rt, named.0, is_named(rt.alloc(), named.0, named));
    }
}
