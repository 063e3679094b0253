//! Certificates that are checked together, bytes that are none, and what is known of one that was checked.

use crate::certs::place;
use crate::checks::{GOOD, finds, made, number};
use crate::members::{EVERYBODY, heads};
use anyhow::Result;
use bk_certcheck::{Verdict, check, check_all, check_each, one_verdict};
use bk_committee::Committee;
use bk_digest::Digest32;
use bk_trial_kit::Tally;
use std::alloc::Global;
use std::thread::Threads;

// A round, an author, parents and signers.
type Row<'a> = (u32, u8, &'a [u8], &'a [u8]);

// Each breaks the rule of its place, from rule 1 on.
const BROKEN: &[Row<'static>] = &[
    (1, 4, &[], &[0, 1, 2]),
    (0, 0, &[], &[0, 1, 2]),
    (1, 0, &[1], &[0, 1, 2]),
    (2, 0, &[1, 3, 2], &[0, 1, 2]),
    (1, 0, &[], &[0, 1, 2, 4]),
    (1, 0, &[], &[0, 1]),
];

// The certificates of round 1 by member 0: sealed by a quorum of four, by two alone, and by a quorum with a bit of the last
// tag turned. And one that breaks each rule, by its number.
#[derive(Drop)]
struct Certs {
    good: Vec<u8>,
    light: Vec<u8>,
    turned: Vec<u8>,
    broken: Vec<Vec<u8>>,
}

// ---- making them

fn of_round_one(alloc: Global, all: &Committee, signers: &[u8]) -> Result<Vec<u8>> {
    made(alloc, all, place(1, 0), &[], signers)
}

fn turned(alloc: Global, all: &Committee) -> Result<Vec<u8>> {
    let mut bytes = of_round_one(alloc, all, &[0, 1, 2])?;
    if let Some(last) = bytes.last_mut() {
        *last ^= 1;
    }
    Ok(bytes)
}

fn put_broken(alloc: Global, all: &Committee, certs: &mut Vec<Vec<u8>>) -> Result<()> {
    certs.push(Vec::new(alloc))?;
    for (round, author, parents, signers) in BROKEN {
        let at = place(*round, *author);
        certs.push(made(alloc, all, at, *parents, *signers)?)?;
    }
    certs.push(turned(alloc, all)?)?;
    Ok(())
}

fn fill(alloc: Global, all: &Committee, certs: &mut Certs) -> Result<()> {
    certs.good = of_round_one(alloc, all, &[0, 1, 2])?;
    certs.light = of_round_one(alloc, all, &[0, 1])?;
    certs.turned = turned(alloc, all)?;
    put_broken(alloc, all, &mut certs.broken)
}

// ---- one at a time

// What a check finds in as many zero bytes: 24 are a certificate of round 0.
const ZEROS: &[(usize, u8)] = &[(0, 0), (24, 2), (25, 0)];

fn is_found(alloc: Global, four: &Committee, count: usize, rule: u8) -> Result<bool> {
    let zeros = vec![in alloc; 0u8; count]?;
    finds(alloc, four, &zeros, rule)
}

fn try_zeros<R>(rt: &R, four: &Committee, tally: &mut Tally)
where
    R: AllocGlobal + Eprint,
{
    for (count, rule) in ZEROS {
        let is_right = is_found(rt.alloc(), four, *count, *rule);
        tally.judge(rt, "zero bytes", is_right);
    }
}

// The id of the good one.
const ID: [u8; 64] = *b"afb203aeddb54bba05c780118d206fa2d2a6dc339c542173499c03db2eb8b1c9";

fn is_checked(verdict: Verdict) -> bool {
    let Verdict::Good(checked) = verdict else {
        return false;
    };
    let header = checked.header();
    let is_right = Some(checked.id()) == Digest32::parse_hex(&ID)
        && header.author() == 0
        && header.round() == 1;
    let header = checked.into_header();
    is_right && header.parents().is_empty()
}

// ---- together

// Each of these, and the good one after it.
fn are_between(alloc: Global, four: &Committee, certs: &Certs) -> Result<bool> {
    let mut payloads: Vec<&[u8]> = Vec::new(alloc);
    for bytes in &certs.broken {
        payloads.push(bytes.as_slice())?;
        payloads.push(certs.good.as_slice())?;
    }
    let verdicts = check_each(alloc, four, &payloads)?;
    Ok(are_in_turn(&verdicts))
}

// Whether rules 0 to 7 are broken, and none after each.
fn are_in_turn(verdicts: &[Verdict]) -> bool {
    for (index, verdict) in verdicts.iter().enumerate() {
        let rule = if index % 2 == 0 {
            index / 2
        } else {
            GOOD as usize
        };
        if number(verdict) as usize != rule {
            return false;
        }
    }
    verdicts.len() == 16
}

// These two in turn, so many times.
fn in_turn<'a>(
    alloc: Global,
    one: &'a [u8],
    other: &'a [u8],
    times: usize,
) -> Result<Vec<&'a [u8]>> {
    let mut payloads = Vec::new(alloc);
    for _ in 0..times {
        payloads.push(one)?;
        payloads.push(other)?;
    }
    Ok(payloads)
}

fn are_as_alone(
    alloc: Global,
    four: &Committee,
    payloads: &[&[u8]],
    verdicts: &[Verdict],
) -> Result<bool> {
    for (verdict, bytes) in verdicts.iter().zip(payloads) {
        if !finds(alloc, four, *bytes, number(verdict))? {
            return Ok(false);
        }
    }
    Ok(verdicts.len() == payloads.len())
}

// What is found in all together is what is found in each alone.
fn is_as_alone(alloc: Global, four: &Committee, payloads: &[&[u8]]) -> Result<bool> {
    let verdicts = check_each(alloc, four, payloads)?;
    are_as_alone(alloc, four, payloads, &verdicts)
}

// None, one and twenty, those of two signers and good ones in turn.
fn is_group_as_alone(alloc: Global, four: &Committee, certs: &Certs, count: usize) -> Result<bool> {
    let payloads = in_turn(alloc, &certs.light, &certs.good, 10)?;
    match payloads.get(..count) {
        Some(part) => is_as_alone(alloc, four, part),
        None => Ok(false),
    }
}

fn try_groups<R>(rt: &R, four: &Committee, certs: &Certs, tally: &mut Tally)
where
    R: AllocGlobal + Eprint,
{
    for count in [0usize, 1, 20] {
        let is_right = is_group_as_alone(rt.alloc(), four, certs, count);
        tally.judge(rt, "certificates together and alone", is_right);
    }
}

// Whether rules 6 and 7 are broken in turn.
fn are_light_and_turned(verdicts: &[Verdict]) -> bool {
    for (index, verdict) in verdicts.iter().enumerate() {
        let rule = if index % 2 == 0 { 6 } else { 7 };
        if number(verdict) != rule {
            return false;
        }
    }
    verdicts.len() == 3_000
}

// 3,000 on many threads, in their order.
fn are_many_right<R: Threads + Sync>(
    rt: &R,
    alloc: Global,
    four: &Committee,
    certs: &Certs,
) -> Result<bool> {
    let payloads = in_turn(alloc, &certs.light, &certs.turned, 1_500)?;
    let verdicts = check_all(rt, alloc, four, &payloads)?;
    Ok(are_light_and_turned(&verdicts))
}

// ---- all

fn is_good_checked(alloc: Global, four: &Committee, good: &[u8]) -> Result<bool> {
    Ok(is_checked(check(alloc, four, good)?))
}

fn try_certs<R>(rt: &R, four: &Committee, certs: &Certs, tally: &mut Tally)
where
    R: AllocGlobal + Eprint + Threads + Sync,
{
    let is_right = is_good_checked(rt.alloc(), four, &certs.good);
    tally.judge(rt, "a checked certificate", is_right);
    let are_right = are_between(rt.alloc(), four, certs);
    tally.judge(rt, "each rule between good certificates", are_right);
    try_groups(rt, four, certs, tally);
    let are_right = are_many_right(rt, rt.alloc(), four, certs);
    tally.judge(rt, "many certificates in their order", are_right);
}

fn fill_all(alloc: Global, certs: &mut Certs) -> Result<()> {
    let all = EVERYBODY.committee(alloc)?;
    fill(alloc, &all, certs)
}

fn try_filled<R>(rt: &R, four: &Committee, certs: &mut Certs, tally: &mut Tally)
where
    R: AllocGlobal + Eprint + Threads + Sync,
{
    if fill_all(rt.alloc(), certs).is_ok() {
        try_certs(rt, four, certs, tally);
    } else {
        tally.miss(rt);
    }
}

fn try_made<R>(rt: &R, four: &Committee, tally: &mut Tally)
where
    R: AllocGlobal + Eprint + Threads + Sync,
{
    let mut certs = Certs {
        good: Vec::new(rt.alloc()),
        light: Vec::new(rt.alloc()),
        turned: Vec::new(rt.alloc()),
        broken: Vec::new(rt.alloc()),
    };
    try_filled(rt, four, &mut certs, tally);
}

fn try_four<R>(rt: &R, four: &Committee, tally: &mut Tally)
where
    R: AllocGlobal + Eprint + Threads + Sync,
{
    try_zeros(rt, four, tally);
    try_made(rt, four, tally);
}

/// Certificates of a committee of four, of whom three are a quorum.
pub(crate) fn try_judging<R>(rt: &R, tally: &mut Tally)
where
    R: AllocGlobal + Eprint + Threads + Sync,
{
    one_verdict();
    match heads(&[1; 4]).committee(rt.alloc()) {
        Ok(four) => try_four(rt, &four, tally),
        Err(_) => tally.miss(rt),
    }
}
