//! Certificates that break any of the eight rules, and what a check finds in them.

use crate::certs::{Parts, place, sealed};
use crate::members::{EVERYBODY, Members, weighted};
use anyhow::Result;
use bk_base::Version;
use bk_cert::CertRef;
use bk_certcheck::{Verdict, check, check_all};
use bk_committee::Committee;
use bk_digest::Digest32;
use bk_trial_kit::Tally;
use std::alloc::Global;
use std::thread::Threads;

/// What is found of a certificate that breaks no rule.
pub(crate) const GOOD: u8 = 8;

// The weights of four members, of which 6 are a quorum.
const WEIGHTS: [u32; 4] = [5, 1, 1, 1];

/// The number of the rule that is found broken.
pub(crate) fn number(verdict: &Verdict) -> u8 {
    match verdict {
        Verdict::Good(_) => GOOD,
        Verdict::Broken(rule) => *rule as u8,
    }
}

/// The bytes of a certificate of no batches, whose parents have these bytes as their ids.
pub(crate) fn made(
    alloc: Global,
    all: &Committee,
    at: CertRef,
    parents: &[u8],
    signers: &[u8],
) -> Result<Vec<u8>> {
    let mut ids = Vec::new(alloc);
    for byte in parents {
        ids.push(Digest32::new([*byte; 32]))?;
    }
    let parts = Parts {
        at,
        batches: &[],
        parents: &ids,
    };
    sealed(alloc, all, parts, signers)
}

// ---- all sets of rules

// Bit k says that rule k is broken.
fn breaks(rules: u32, rule: u32) -> bool {
    rules.wrapping_shr(rule) & 1 == 1
}

fn parents_breaking(rules: u32) -> &'static [u8] {
    match (breaks(rules, 3), breaks(rules, 4)) {
        (false, false) => &[1, 2, 3, 4],
        (false, true) => &[1, 3, 2, 4],
        (true, false) => &[1, 2, 3, 4, 5],
        (true, true) => &[1, 2, 3, 5, 5],
    }
}

// In version Two the members weigh 5, 1, 1 and 1, so members 1, 2 and 3 are no quorum.
fn signers_breaking(version: Version, rules: u32) -> &'static [u8] {
    match (version, breaks(rules, 5), breaks(rules, 6)) {
        (Version::One, false, false) => &[0, 1, 2],
        (Version::One, true, false) => &[0, 1, 2, 4],
        (Version::One, false, true) => &[0, 3],
        (Version::One, true, true) => &[3, 127],
        (Version::Two, false, false) => &[0, 1],
        (Version::Two, true, false) => &[0, 1, 4],
        (Version::Two, false, true) => &[1, 2, 3],
        (Version::Two, true, true) => &[1, 2, 3, 127],
    }
}

// A certificate of four members that breaks exactly these rules.
fn breaking(alloc: Global, all: &Committee, version: Version, rules: u32) -> Result<Vec<u8>> {
    let author = if breaks(rules, 1) { 4 } else { 3 };
    let round = if breaks(rules, 2) {
        1_000_001
    } else {
        1_000_000
    };
    let parents = parents_breaking(rules);
    let signers = signers_breaking(version, rules);
    let mut bytes = made(alloc, all, place(round, author), parents, signers)?;
    if breaks(rules, 7) {
        if let Some(last) = bytes.last_mut() {
            *last ^= 0x80;
        }
    }
    if breaks(rules, 0) {
        bytes.push(0)?;
    }
    Ok(bytes)
}

// The least rule of a set.
fn least(rules: u32) -> u8 {
    for rule in 0..8u8 {
        if breaks(rules, u32::from(rule)) {
            return rule;
        }
    }
    GOOD
}

// Certificates that break each set of rules, by its number.
fn all_breaking(alloc: Global, version: Version) -> Result<Vec<Vec<u8>>> {
    let all = EVERYBODY.committee(alloc)?;
    let mut certs = Vec::new(alloc);
    for rules in 0..256u32 {
        certs.push(breaking(alloc, &all, version, rules)?)?;
    }
    Ok(certs)
}

/// Whether this rule is found broken.
pub(crate) fn finds(
    alloc: Global,
    committee: &Committee,
    bytes: &[u8],
    wanted: u8,
) -> Result<bool> {
    Ok(number(&check(alloc, committee, bytes)?) == wanted)
}

// Each certificate alone.
fn try_alone<R>(rt: &R, committee: &Committee, certs: &[Vec<u8>], tally: &mut Tally)
where
    R: AllocGlobal + Eprint,
{
    let mut rules = 0u32;
    for bytes in certs {
        let is_right = finds(rt.alloc(), committee, bytes, least(rules));
        tally.judge(rt, "the least rule of a set", is_right);
        rules = rules.saturating_add(1);
    }
}

fn are_least(verdicts: &[Verdict]) -> bool {
    let mut rules = 0u32;
    for verdict in verdicts {
        if number(verdict) != least(rules) {
            return false;
        }
        rules = rules.saturating_add(1);
    }
    rules == 256
}

// All certificates in one call.
fn are_least_together<R: Threads + Sync>(
    rt: &R,
    alloc: Global,
    committee: &Committee,
    certs: &[Vec<u8>],
) -> Result<bool> {
    let mut payloads: Vec<&[u8]> = Vec::new(alloc);
    for bytes in certs {
        payloads.push(bytes.as_slice())?;
    }
    let verdicts = check_all(rt, alloc, committee, &payloads)?;
    Ok(are_least(&verdicts))
}

fn try_all<R>(rt: &R, committee: &Committee, certs: &[Vec<u8>], tally: &mut Tally)
where
    R: AllocGlobal + Eprint + Threads + Sync,
{
    try_alone(rt, committee, certs, tally);
    let are_right = are_least_together(rt, rt.alloc(), committee, certs);
    tally.judge(rt, "the least rules of all sets", are_right);
}

fn try_certs<R>(rt: &R, committee: &Committee, version: Version, tally: &mut Tally)
where
    R: AllocGlobal + Eprint + Threads + Sync,
{
    match all_breaking(rt.alloc(), version) {
        Ok(certs) => try_all(rt, committee, &certs, tally),
        Err(_) => tally.miss(rt),
    }
}

fn try_sets<R>(rt: &R, version: Version, tally: &mut Tally)
where
    R: AllocGlobal + Eprint + Threads + Sync,
{
    let four = Members {
        version,
        weights: &WEIGHTS,
    };
    match four.committee(rt.alloc()) {
        Ok(committee) => try_certs(rt, &committee, version, tally),
        Err(_) => tally.miss(rt),
    }
}

// ---- turned bytes

// Where the author, the round, the counts, the parents, the mask and the tags of the certificate of `try_turned` begin
// and end, and the least and the greatest rule that a turned byte can break there.
const FIELDS: &[(usize, usize, u8, u8)] = &[
    (0, 1, 1, 7),
    (1, 5, 2, 7),
    (5, 8, 0, 0),
    (8, 72, 4, 7),
    (72, 88, 0, 0),
    (88, 152, 7, 7),
];

fn turned(alloc: Global, good: &[u8], index: usize) -> Result<Vec<u8>> {
    let mut bytes = Vec::from_slice(alloc, good)?;
    if let Some(byte) = bytes.get_mut(index) {
        *byte ^= 0x10;
    }
    Ok(bytes)
}

// Whether a check finds a rule from `least` to `most` broken where this byte is turned.
fn finds_turned(
    alloc: Global,
    committee: &Committee,
    good: &[u8],
    index: usize,
    (least, most): (u8, u8),
) -> Result<bool> {
    let bytes = turned(alloc, good, index)?;
    let rule = number(&check(alloc, committee, &bytes)?);
    Ok(rule >= least && rule <= most)
}

// Of a good certificate each byte is turned in turn: no byte can be changed, though not each is covered by a tag.
fn try_bytes<R>(rt: &R, committee: &Committee, good: &[u8], tally: &mut Tally)
where
    R: AllocGlobal + Eprint,
{
    for (begin, end, least, most) in FIELDS {
        for index in *begin..*end {
            let is_right = finds_turned(rt.alloc(), committee, good, index, (*least, *most));
            tally.judge(rt, "a turned byte", is_right);
        }
    }
}

fn try_good<R>(rt: &R, committee: &Committee, good: &[u8], tally: &mut Tally)
where
    R: AllocGlobal + Eprint,
{
    let is_found = finds(rt.alloc(), committee, good, GOOD).unwrap_or(false);
    tally.note(rt, "a good certificate", is_found && good.len() == 152);
    try_bytes(rt, committee, good, tally);
}

fn try_one<R>(rt: &R, committee: &Committee, tally: &mut Tally)
where
    R: AllocGlobal + Eprint,
{
    match made(rt.alloc(), committee, place(2, 3), &[7, 9], &[0, 2]) {
        Ok(good) => try_good(rt, committee, &good, tally),
        Err(_) => tally.miss(rt),
    }
}

fn try_turned<R>(rt: &R, tally: &mut Tally)
where
    R: AllocGlobal + Eprint,
{
    let four = weighted(&WEIGHTS);
    match four.committee(rt.alloc()) {
        Ok(committee) => try_one(rt, &committee, tally),
        Err(_) => tally.miss(rt),
    }
}

/// Certificates that break each set of rules, and one each of whose bytes is turned.
pub(crate) fn try_checks<R>(rt: &R, tally: &mut Tally)
where
    R: AllocGlobal + Eprint + Threads + Sync,
{
    try_sets(rt, Version::One, tally);
    try_sets(rt, Version::Two, tally);
    try_turned(rt, tally);
}
