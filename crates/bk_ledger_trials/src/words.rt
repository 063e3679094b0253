//! The words of banks that are closed before the first place, and after the last one, against what was worked out by
//! hand.

ghost use Rattle.std.specs.Prelude.{◌≡◌, ◌*◌, ◌<◌, ◌≤◌, IfSome};
ghost use Rattle.bk_bank.specs.Bank.{bank_scene, IsPassOf};
ghost use Rattle.bk_pool.specs.Reads.{IsBankOf};

use crate::cases::{Name, feed_named};
use crate::executing::prepared;
use crate::lost::{DONE, left, makes_ready, taken};
use anyhow::Result;
use bk_bank::{Bank, Pass, Words};
use bk_base::Version;
use bk_conflicts::Plan;
use bk_frames::Feed;
use bk_pool::{Open, run_place};
use bk_trial_kit::Tally;
use std::alloc::Global;

// More accounts and places than any bank here has.
const MOST: usize = 8;

// The sequence number of an account that is not there.
const ABSENT: u64 = u64::MAX;

// The word of a place that is done with status 3: an account is unknown.
const UNKNOWN: u64 = (1 << 63) + 3;

/// The words of a bank: balance and sequence number of each account that has a slot, state and moved amount of each
/// place.
#[derive(Clone, Copy)]
pub(crate) struct Shown<'a> {
    pub(crate) accounts: &'a [(u64, u64)],
    pub(crate) places: &'a [(u64, u64)],
}

// ---- the words

// How many accounts have a slot in the plan of a bank. Each has two words.
#[tactic(auto, using(bk_bank::proofs::Settings::scene_words))]
fn slots_of(_bank: &Bank, plan: &Plan) -> usize
    requires same { plan.now ≡ _bank.now.setting.plan }
    ensures { (bank_scene _bank.now).words ≡ 2 * result }
{
    plan.accounts().len()
}

// Whether so many accounts have these words.
fn are_accounts(words: &Words, slots: usize, wanted: &[(u64, u64)]) -> bool
    requires few { slots ≤ 8 }
    requires words { words.now.words ≡ 2 * slots }
{
    for slot in 0..slots {
        let Some((balance, seq)) = wanted.get(slot) else {
            return false;
        };
        if words.word(2 * slot) != *balance || words.word(2 * slot + 1) != *seq {
            return false;
        }
    }
    wanted.len() == slots
}

// Whether so many places have these words.
fn are_places(words: &Words, places: usize, wanted: &[(u64, u64)]) -> bool
    requires few { places ≤ 8 }
    requires places { words.now.places ≡ places }
{
    for place in 0..places {
        let Some((state, moved)) = wanted.get(place) else {
            return false;
        };
        if words.state_of(place as u32) != *state || words.moved(place as u32) != *moved {
            return false;
        }
    }
    wanted.len() == places
}

/// Whether these are all words of a bank that is closed.
pub(crate) fn closes_as(bank: Bank, plan: &Plan, pass: Pass, shown: &Shown<'_>) -> bool
    requires own { IsPassOf bank pass }
    requires plan { IsBankOf plan.now bank }
{
    let slots = slots_of(&bank, plan);
    let places = bank.len();
    if slots > MOST || places > MOST {
        return false;
    }
    let words = bank.close(pass);
    let are_right = are_accounts(&words, slots, shown.accounts);
    are_right && are_places(&words, places, shown.places)
}

// ---- places

/// The pass again, after a place that only the next one waits for.
pub(crate) fn done_before(bank: &Bank, plan: &Plan, pass: Pass, place: u32) -> Option<Pass>
    requires own { IsPassOf bank.now pass }
    requires plan { IsBankOf plan.now bank.now }
    requires place { place < (bank_scene bank.now).places }
    ensures own { IfSome result (IsPassOf bank.now) }
{
    let hold = taken(bank, pass, place)?;
    let mut leaving = run_place(bank, plan, hold, &Open);
    if makes_ready(bank, &mut leaving, place.saturating_add(1)) {
        left(bank, leaving)
    } else {
        None
    }
}

/// The pass again, after a place that none waits for.
pub(crate) fn done_last(bank: &Bank, plan: &Plan, pass: Pass, place: u32) -> Option<Pass>
    requires own { IsPassOf bank.now pass }
    requires plan { IsBankOf plan.now bank.now }
    requires place { place < (bank_scene bank.now).places }
    ensures own { IfSome result (IsPassOf bank.now) }
{
    let hold = taken(bank, pass, place)?;
    let leaving = run_place(bank, plan, hold, &Open);
    left(bank, leaving)
}

fn two_done(bank: &Bank, plan: &Plan, pass: Pass) -> Option<Pass>
    requires own { IsPassOf bank.now pass }
    requires plan { IsBankOf plan.now bank.now }
    requires two { (bank_scene bank.now).places ≡ 2 }
    ensures own { IfSome result (IsPassOf bank.now) }
{
    let pass = done_before(bank, plan, pass, 0)?;
    done_last(bank, plan, pass, 1)
}

fn three_done(bank: &Bank, plan: &Plan, pass: Pass) -> Option<Pass>
    requires own { IsPassOf bank.now pass }
    requires plan { IsBankOf plan.now bank.now }
    requires three { (bank_scene bank.now).places ≡ 3 }
    ensures own { IfSome result (IsPassOf bank.now) }
{
    let pass = done_before(bank, plan, pass, 0)?;
    let pass = done_before(bank, plan, pass, 1)?;
    done_last(bank, plan, pass, 2)
}

// Two places or three, of which each waits for the one before it.
fn all_done(bank: &Bank, plan: &Plan, pass: Pass) -> Option<Pass>
    requires own { IsPassOf bank.now pass }
    requires plan { IsBankOf plan.now bank.now }
    ensures own { IfSome result (IsPassOf bank.now) }
{
    let places = bank.len();
    if places == 2 {
        return two_done(bank, plan, pass);
    }
    if places == 3 {
        return three_done(bank, plan, pass);
    }
    None
}

// ---- banks

fn is_opened_as(alloc: Global, feed: &Feed, shown: &Shown<'_>) -> Result<bool> {
    let (plan, state) = prepared(alloc, feed)?;
    let (bank, pass) = Bank::new(alloc, &plan, &state)?;
    Ok(closes_as(bank, &plan, pass, shown))
}

fn is_done_as(alloc: Global, feed: &Feed, shown: &Shown<'_>) -> Result<bool> {
    let (plan, state) = prepared(alloc, feed)?;
    let (bank, pass) = Bank::new(alloc, &plan, &state)?;
    let Some(pass) = all_done(&bank, &plan, pass) else {
        return Ok(false);
    };
    Ok(closes_as(bank, &plan, pass, shown))
}

fn try_feed<R>(rt: &R, feed: &Feed, opened: &Shown<'_>, done: &Shown<'_>, tally: &mut Tally)
where
    R: AllocGlobal + Eprint,
{
    let is_right = is_opened_as(rt.alloc(), feed, opened);
    tally.judge(rt, "the words of a bank that is opened", is_right);
    let is_right = is_done_as(rt.alloc(), feed, done);
    tally.judge(rt, "the words of a bank that is done", is_right);
}

const BOTH_OPENED: Shown<'static> = Shown {
    accounts: &[(100, 0), (50, 0), (10, 0)],
    places: &[(0, 0), (1, 0)],
};

/// Account 1 paid 10 to account 3, and account 2 its 50 to account 1.
pub(crate) const BOTH_PAID: Shown<'static> = Shown {
    accounts: &[(140, 1), (0, 1), (20, 0)],
    places: &[(DONE, 10), (DONE, 50)],
};

const ABSENT_OPENED: Shown<'static> = Shown {
    accounts: &[(100, 0)],
    places: &[(0, 0), (1, 0), (1, 0)],
};

const ABSENT_REFUSED: Shown<'static> = Shown {
    accounts: &[(100, 0)],
    places: &[(UNKNOWN, 0), (UNKNOWN, 0), (UNKNOWN, 0)],
};

const MADE_OPENED: Shown<'static> = Shown {
    accounts: &[(100, 0), (0, ABSENT), (0, ABSENT)],
    places: &[(0, 0), (1, 0), (1, 0)],
};

const MADE_PAID: Shown<'static> = Shown {
    accounts: &[(80, 1), (0, ABSENT), (20, 1)],
    places: &[(DONE, 30), (DONE, 10), (UNKNOWN, 0)],
};

// A version and a list, and the words of its bank as it is opened and as it ends.
type Case = ((Version, Name), (Shown<'static>, Shown<'static>));

// Of two payments in conflict both versions give the same words, since each account is there. In version One the absent
// accounts 8 and 9 have no slot, and no payment finds its accounts. In version Two they have one each: account 9 comes to
// be, and 8 stays absent.
const CASES: [Case; 4] = [
    (
        (Version::One, Name::GuardThenPayment),
        (BOTH_OPENED, BOTH_PAID),
    ),
    (
        (Version::Two, Name::GuardThenPayment),
        (BOTH_OPENED, BOTH_PAID),
    ),
    (
        (Version::One, Name::Absent),
        (ABSENT_OPENED, ABSENT_REFUSED),
    ),
    ((Version::Two, Name::Absent), (MADE_OPENED, MADE_PAID)),
];

/// Banks of two payments whose accounts are there, and of three some of whose accounts are absent.
pub(crate) fn try_words<R>(rt: &R, tally: &mut Tally)
where
    R: AllocGlobal + Eprint,
{
    for ((version, name), (opened, done)) in CASES {
        match feed_named(rt.alloc(), version, name) {
            Ok(feed) => try_feed(rt, &feed, &opened, &done, tally),
            Err(_) => tally.miss(rt),
        }
    }
}
