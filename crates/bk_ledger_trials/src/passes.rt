//! Two threads, each with a pass of its own to one bank.

ghost use Rattle.std.specs.Prelude.{◌≡◌, ◌<◌, IfSome};
ghost use Rattle.bk_bank.specs.Bank.{bank_scene, IsPassOf};
ghost use Rattle.bk_pool.specs.Reads.{IsBankOf};

use crate::cases::{Name, VERSIONS, feed_named};
use crate::executing::prepared;
use crate::lost::{DONE, HELD, shows};
use crate::words::{BOTH_PAID, closes_as, done_before, done_last};
use anyhow::Result;
use bk_bank::{Bank, Pass};
use bk_conflicts::Plan;
use bk_frames::Feed;
use bk_trial_kit::Tally;
use std::alloc::Global;
use std::thread;
use std::thread::{Threads, join};

// How often a thread looks for what the other one does.
const LOOKS: u64 = 20_000_000;

const ROUNDS: u64 = 50;

// Looks at a place until it shows this word. Before that it may show those alone.
fn comes_to(bank: &Bank, pass: &mut Pass, place: u32, earlier: &[u64], word: u64) -> bool
    requires own { IsPassOf bank.now pass.old }
    requires place { place < (bank_scene bank.now).places }
    ensures own { IsPassOf bank.now pass.new }
{
    for _ in 0..LOOKS {
        let found = bank.look(pass, place);
        if found == word {
            return true;
        }
        if !earlier.contains(&found) {
            return false;
        }
        thread::yield_now();
    }
    false
}

// Place 1, once the other thread has done place 0 and counted down.
fn second_place(bank: &Bank, plan: &Plan, pass: Pass) -> Option<Pass>
    requires own { IsPassOf bank.now pass }
    requires plan { IsBankOf plan.now bank.now }
    requires two { (bank_scene bank.now).places ≡ 2 }
    ensures own { IfSome result (IsPassOf bank.now) }
{
    let mut pass = pass;
    let is_done = comes_to(bank, &mut pass, 0, &[0, HELD], DONE);
    let is_ready = comes_to(bank, &mut pass, 1, &[1], 0);
    if is_done && is_ready {
        done_last(bank, plan, pass, 1)
    } else {
        None
    }
}

// One pass again, after both places: one thread does the first of them, and another one the second.
fn both_places<R: Threads>(rt: &R, bank: &Bank, plan: &Plan, pass: Pass) -> Option<Pass>
    requires own { IsPassOf bank.now pass }
    requires plan { IsBankOf plan.now bank.now }
    requires two { (bank_scene bank.now).places ≡ 2 }
    ensures own { IfSome result (IsPassOf bank.now) }
{
    let (mine, other) = bank.split(pass);
    let (first, second) = join(
        rt,
        || -> Option<Pass>
            requires { IsPassOf bank.now mine × IsBankOf plan.now bank.now
                × ((bank_scene bank.now).places ≡ 2) }
            ensures { IfSome result (IsPassOf bank.entry.now) }
        { done_before(bank, plan, mine, 0) },
        || -> Option<Pass>
            requires { IsPassOf bank.now other × IsBankOf plan.now bank.now
                × ((bank_scene bank.now).places ≡ 2) }
            ensures { IfSome result (IsPassOf bank.entry.now) }
        { second_place(bank, plan, other) },
    );
    let first = first?;
    let second = second?;
    Some(bank.join(first, second))
}

// Whether the joined pass sees both places done, and the bank closes with the words of both payments.
fn have_paid<R: Threads>(rt: &R, alloc: Global, feed: &Feed) -> Result<bool> {
    let (plan, state) = prepared(alloc, feed)?;
    let (bank, pass) = Bank::new(alloc, &plan, &state)?;
    if bank.len() != 2 {
        return Ok(false);
    }
    let Some(mut pass) = both_places(rt, &bank, &plan, pass) else {
        return Ok(false);
    };
    if !shows(&bank, &mut pass, DONE, DONE) {
        return Ok(false);
    }
    Ok(closes_as(bank, &plan, pass, &BOTH_PAID))
}

fn try_rounds<R>(rt: &R, feed: &Feed, tally: &mut Tally)
where
    R: AllocGlobal + Eprint + Threads,
{
    for _ in 0..ROUNDS {
        let is_right = have_paid(rt, rt.alloc(), feed).unwrap_or(false);
        tally.note(rt, "places on two threads", is_right);
        // Each that fails may have looked for as long as it can.
        if !is_right {
            return;
        }
    }
}

/// Two payments in conflict, each by a thread of its own, in both versions.
pub(crate) fn try_passes<R>(rt: &R, tally: &mut Tally)
where
    R: AllocGlobal + Eprint + Threads,
{
    for version in VERSIONS {
        match feed_named(rt.alloc(), *version, Name::GuardThenPayment) {
            Ok(feed) => try_rounds(rt, &feed, tally),
            Err(_) => tally.miss(rt),
        }
    }
}
