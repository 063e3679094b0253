//! What one worker does.
ghost use Rattle.std.specs.Prelude.{◌≡◌, ◌<◌, ◌^◌, IfOk, IfErr, length};
ghost use Rattle.bk_bank.specs.Bank.{bank_scene, IsPassOf, IsHoldOf, IsLeavingOf};
ghost use Rattle.bk_pool.specs.Reads.{IsFresh, IsBankOf};

use crate::hints::Hints;
use crate::place::{Gate, run_place};
use bk_bank::{Bank, Hold, Leaving, Pass, Step};
use bk_conflicts::Plan;

// How many hints in a row may give no hold.
const IDLE_HINTS: u32 = 1_000_000;

/// Takes hints and executes the places that they give, until `None`, or until 1,000,000 in a row
/// gave none.
pub(crate) fn work<G: Gate, H: Hints>(
    bank: &Bank,
    plan: &Plan,
    gate: &G,
    pass: Pass,
    end: &mut H,
) -> Pass
    requires own { IsPassOf bank.now pass }
    requires plan { IsBankOf plan.now bank.now }
    ensures own { IsPassOf bank.now result }
{
    let mut idle = pass;
    // Each place is held once, so the last round finds no hold.
    for _ in 0..=plan.len() {
        match next_hold(bank, plan, idle, end) {
            Ok(hold) => {
                let place = hold.place();
                idle = serve(bank, plan, gate, hold, end);
                end.dealt(place);
            }
            Err(pass) => return pass,
        }
    }
    idle
}

// Takes hints until one of them gives a hold, whose hint is still to be dealt with.
fn next_hold<H: Hints>(bank: &Bank, plan: &Plan, pass: Pass, end: &mut H) -> Result<Hold, Pass>
    requires own { IsPassOf bank.now pass }
    requires plan { IsBankOf plan.now bank.now }
    ensures hold { IfOk result (λ h. IsHoldOf bank.now h × IsFresh h) }
    ensures none { IfErr result (λ p. IsPassOf bank.now p) }
{
    let mut idle = pass;
    for _ in 0..IDLE_HINTS {
        let Some(place) = end.take() else {
            return Err(idle);
        };
        match try_claim(bank, plan, idle, place) {
            Ok(hold) => return Ok(hold),
            Err(pass) => idle = pass,
        }
        end.dealt(place);
    }
    Err(idle)
}

// Claims what a hint says, if it is a place and is ready. A look at its word costs less than an
// exchange that is refused.
pub(crate) fn try_claim(bank: &Bank, plan: &Plan, pass: Pass, place: u32) -> Result<Hold, Pass>
    requires own { IsPassOf bank.now pass }
    requires plan { IsBankOf plan.now bank.now }
    ensures hold { IfOk result (λ h. IsHoldOf bank.now h × IsFresh h) }
    ensures none { IfErr result (λ p. IsPassOf bank.now p) }
{
    if plan.len() <= place as usize {
        return Err(pass);
    }
    let mut pass = pass;
    if bank.look(&mut pass, place) != 0 {
        return Err(pass);
    }
    match bank.claim(pass, place) {
        Ok(hold) => Ok(hold),
        Err((pass, _)) => Err(pass),
    }
}

/// Executes the place that is held, and puts each place that becomes ready as a hint.
pub(crate) fn serve<G: Gate, H: Hints>(
    bank: &Bank,
    plan: &Plan,
    gate: &G,
    hold: Hold,
    end: &mut H,
) -> Pass
    requires own { IsHoldOf bank.now hold }
    requires plan { IsBankOf plan.now bank.now }
    requires fresh { IsFresh hold }
    ensures own { IsPassOf bank.now result }
{
    let leaving = run_place(bank, plan, hold, gate);
    release_all(bank, leaving, end)
}

// Counts all successors down.
fn release_all<H: Hints>(bank: &Bank, leaving: Leaving, end: &mut H) -> Pass
    requires own { IsLeavingOf bank.now leaving }
    ensures own { IsPassOf bank.now result }
{
    let mut leaving = leaving;
    loop {
        match bank.release(&mut leaving) {
            Step::Became(place) => end.put(place),
            Step::More => {}
            Step::End => return bank.leave(leaving),
        }
    }
}
