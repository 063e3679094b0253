//! Holds and leavings that are lost, and what the words of places show between the steps of a worker.

ghost use Rattle.std.specs.Prelude.{◌≡◌, ◌<◌, ◌≤◌, IfSome};
ghost use Rattle.bk_bank.specs.Bank.{bank_scene, IsPassOf, IsHoldOf, IsLeavingOf};
ghost use Rattle.bk_pool.specs.Reads.{IsFresh, IsBankOf};

use crate::cases::{Name, VERSIONS, feed_named};
use crate::executing::prepared;
use anyhow::Result;
use bk_bank::{Bank, Hold, Leaving, Pass, Step};
use bk_conflicts::Plan;
use bk_frames::Feed;
use bk_pool::{Open, run_place};
use bk_trial_kit::Tally;
use std::alloc::Global;

/// The word of a place that is held.
pub(crate) const HELD: u64 = 1 << 62;

/// The word of a place that is done with status 0.
pub(crate) const DONE: u64 = 1 << 63;

// ---- steps

/// Whether the words of places 0 and 1 are these.
pub(crate) fn shows(bank: &Bank, pass: &mut Pass, first: u64, second: u64) -> bool
    requires own { IsPassOf bank.now pass.old }
    requires two { 2 ≤ (bank_scene bank.now).places }
    ensures own { IsPassOf bank.now pass.new }
{
    let one = bank.look(pass, 0);
    let two = bank.look(pass, 1);
    one == first && two == second
}

// The pass again, if the place cannot be taken and shows this word.
fn refused(bank: &Bank, pass: Pass, place: u32, word: u64) -> Option<Pass>
    requires own { IsPassOf bank.now pass }
    requires place { place < (bank_scene bank.now).places }
    ensures own { IfSome result (IsPassOf bank.now) }
{
    match bank.claim(pass, place) {
        Ok(_) => None,
        Err((pass, found)) => { if found == word { Some(pass) } else { None } }
    }
}

/// The place, if it can be taken.
pub(crate) fn taken(bank: &Bank, pass: Pass, place: u32) -> Option<Hold>
    requires own { IsPassOf bank.now pass }
    requires place { place < (bank_scene bank.now).places }
    ensures hold { IfSome result (λ h. IsHoldOf bank.now h × IsFresh h) }
{
    match bank.claim(pass, place) {
        Ok(hold) => Some(hold),
        Err(_) => None,
    }
}

/// Whether the next step makes this place ready.
pub(crate) fn makes_ready(bank: &Bank, leaving: &mut Leaving, place: u32) -> bool
    requires own { IsLeavingOf bank.now leaving.old }
    ensures own { IsLeavingOf bank.now leaving.new }
{
    bank.release(leaving) == Step::Became(place)
}

/// The pass again, if no place is left to count down.
pub(crate) fn left(bank: &Bank, leaving: Leaving) -> Option<Pass>
    requires own { IsLeavingOf bank.now leaving }
    ensures own { IfSome result (IsPassOf bank.now) }
{
    let mut leaving = leaving;
    match bank.release(&mut leaving) {
        Step::End => Some(bank.leave(leaving)),
        Step::Became(_) | Step::More => None,
    }
}

// ---- what is lost

// A hold of place 0 is dropped: it is held for good, and place 1 waits.
fn keeps_lost_hold(bank: Bank, pass: Pass) -> bool
    requires own { IsPassOf bank pass }
    requires two { (bank_scene bank).places ≡ 2 }
{
    let (pass, other) = bank.split(pass);
    if taken(&bank, pass, 0).is_none() {
        return false;
    }
    let Some(other) = refused(&bank, other, 0, HELD) else {
        return false;
    };
    let words = bank.close(other);
    words.state_of(0) == HELD && words.state_of(1) == 1 && words.first_unfinished() == Some(0)
}

// Whether place 0 has six words, and reads its balances of accounts 1 and 3 as they were laid.
fn reads_opening(bank: &Bank, plan: &Plan, pass: Pass) -> bool
    requires own { IsPassOf bank.now pass }
    requires same { plan.now ≡ bank.now.setting.plan }
    requires two { (bank_scene bank.now).places ≡ 2 }
{
    if plan.len() != 2 || plan.words_of(0).len() != 6 {
        return false;
    }
    let Ok(mut hold) = bank.claim(pass, 0) else {
        return false;
    };
    let balance = bank.read(&mut hold, 0);
    let other = bank.read(&mut hold, 4);
    hold.place() == 0 && balance == 100 && other == 10
}

// The same when some words of the place were read.
fn keeps_read_hold(bank: Bank, plan: &Plan, pass: Pass) -> bool
    requires own { IsPassOf bank pass }
    requires plan { IsBankOf plan.now bank }
    requires two { (bank_scene bank).places ≡ 2 }
{
    let (pass, mut other) = bank.split(pass);
    let are_right = reads_opening(&bank, plan, pass) && shows(&bank, &mut other, HELD, 1);
    let words = bank.close(other);
    are_right && words.first_unfinished() == Some(0)
}

// Place 0 is executed, and its leaving is dropped before place 1 is counted down: place 1 waits for good.
fn keeps_lost_leaving(bank: Bank, plan: &Plan, pass: Pass) -> bool
    requires own { IsPassOf bank pass }
    requires plan { IsBankOf plan.now bank }
    requires two { (bank_scene bank).places ≡ 2 }
{
    let (pass, other) = bank.split(pass);
    let Some(hold) = taken(&bank, pass, 0) else {
        return false;
    };
    drop(run_place(&bank, plan, hold, &Open));
    let Some(other) = refused(&bank, other, 1, 1) else {
        return false;
    };
    let words = bank.close(other);
    let first = words.state_of(0) == DONE && words.moved(0) == 10;
    first && words.state_of(1) == 1 && words.first_unfinished() == Some(1)
}

// ---- both places in turn

// Place 0, while another pass looks on. Place 1 waits for it.
fn first_place(bank: &Bank, plan: &Plan, pass: Pass, other: &mut Pass) -> Option<Pass>
    requires own { IsPassOf bank.now pass }
    requires other { IsPassOf bank.now other.old }
    requires plan { IsBankOf plan.now bank.now }
    requires two { (bank_scene bank.now).places ≡ 2 }
    ensures own { IfSome result (IsPassOf bank.now) }
    ensures other { IsPassOf bank.now other.new }
{
    let begun = shows(bank, other, 0, 1);
    let pass = refused(bank, pass, 1, 1)?;
    let hold = taken(bank, pass, 0)?;
    let held = shows(bank, other, HELD, 1);
    let mut leaving = run_place(bank, plan, hold, &Open);
    let done = shows(bank, other, DONE, 1);
    let ready = makes_ready(bank, &mut leaving, 1);
    if begun && held && done && ready {
        left(bank, leaving)
    } else {
        None
    }
}

// Place 1, once it is ready. Nothing waits for it.
fn second_place(bank: &Bank, plan: &Plan, pass: Pass, other: &mut Pass) -> Option<Pass>
    requires own { IsPassOf bank.now pass }
    requires other { IsPassOf bank.now other.old }
    requires plan { IsBankOf plan.now bank.now }
    requires two { (bank_scene bank.now).places ≡ 2 }
    ensures own { IfSome result (IsPassOf bank.now) }
    ensures other { IsPassOf bank.now other.new }
{
    let begun = shows(bank, other, DONE, 0);
    let pass = refused(bank, pass, 0, DONE)?;
    let hold = taken(bank, pass, 1)?;
    let held = shows(bank, other, DONE, HELD);
    let leaving = run_place(bank, plan, hold, &Open);
    let done = shows(bank, other, DONE, DONE);
    if begun && held && done {
        left(bank, leaving)
    } else {
        None
    }
}

fn shows_steps(bank: Bank, plan: &Plan, pass: Pass) -> bool
    requires own { IsPassOf bank pass }
    requires plan { IsBankOf plan.now bank }
    requires two { (bank_scene bank).places ≡ 2 }
{
    let (pass, mut other) = bank.split(pass);
    let Some(pass) = first_place(&bank, plan, pass, &mut other) else {
        return false;
    };
    let Some(pass) = second_place(&bank, plan, pass, &mut other) else {
        return false;
    };
    let pass = bank.join(pass, other);
    let words = bank.close(pass);
    let moved = words.moved(0) == 10 && words.moved(1) == 50;
    moved && words.first_unfinished().is_none()
}

// ---- all of them

// What is done with a bank of two payments.
#[derive(Clone, Copy)]
enum Deed {
    LoseHold,
    LoseReadHold,
    LoseLeaving,
    DoBoth,
}

const DEEDS: &[(Deed, &str)] = &[
    (Deed::LoseHold, "a hold that is lost"),
    (Deed::LoseReadHold, "a hold that is lost after reads"),
    (Deed::LoseLeaving, "a leaving that is lost"),
    (Deed::DoBoth, "the words between steps"),
];

// Account 1 pays 10 if account 2 has its money, and then account 2 pays its 50.
fn is_shown(alloc: Global, feed: &Feed, deed: Deed) -> Result<bool> {
    let (plan, state) = prepared(alloc, feed)?;
    let (bank, pass) = Bank::new(alloc, &plan, &state)?;
    if bank.len() != 2 {
        return Ok(false);
    }
    Ok(match deed {
        Deed::LoseHold => keeps_lost_hold(bank, pass),
        Deed::LoseReadHold => keeps_read_hold(bank, &plan, pass),
        Deed::LoseLeaving => keeps_lost_leaving(bank, &plan, pass),
        Deed::DoBoth => shows_steps(bank, &plan, pass),
    })
}

fn try_deeds<R>(rt: &R, feed: &Feed, tally: &mut Tally)
where
    R: AllocGlobal + Eprint,
{
    for (deed, what) in DEEDS {
        tally.judge(rt, what, is_shown(rt.alloc(), feed, *deed));
    }
}

/// A bank of two payments in conflict, in both versions.
pub(crate) fn try_lost<R>(rt: &R, tally: &mut Tally)
where
    R: AllocGlobal + Eprint,
{
    for version in VERSIONS {
        match feed_named(rt.alloc(), *version, Name::GuardThenPayment) {
            Ok(feed) => try_deeds(rt, &feed, tally),
            Err(_) => tally.miss(rt),
        }
    }
}
