//! Workers that are started and joined one inside the other, and the last in the thread that starts them.
ghost use Rattle.std.specs.Prelude.{◌≡◌};
ghost use Rattle.std.specs.Thread.{IsSync, IsSend};
ghost use Rattle.bk_bank.specs.Bank.{bank_scene, IsPassOf};
ghost use Rattle.bk_pool.specs.Reads.{IsBankOf};

use crate::hints::Hints;
use crate::place::Gate;
use crate::work::work;
use bk_bank::{Bank, Pass};
use bk_conflicts::Plan;
use std::snapshot::Snapshot;
use std::sync::Wait;
use std::thread;
use std::thread::{Promise, Threads};

// The pass that a worker gives back is of this bank.
#[derive(Drop)]
struct OfBank(Snapshot<Bank>);

impl Promise<Pass> for OfBank {
    ghost use Rattle.bk_bank.specs.Bank.{IsPassOf};

    ghost kept_by = { λ b pass. IsPassOf b.0.value pass };
}

/// Runs one worker for each end, the last of them in the calling thread, and joins them all. One for
/// which no thread can be made is done without, and its pass is lost.
pub(crate) fn levels<R: Threads + Wait + Sync, G: Gate + Sync, H: Hints + Send + Drop>(
    rt: &R,
    bank: &Bank,
    plan: &Plan,
    gate: &G,
    pass: Pass,
    ends: Vec<H>,
) -> Pass
    requires own { IsPassOf bank.now pass }
    requires plan { IsBankOf plan.now bank.now }
    ensures own { IsPassOf bank.now result }
{
    let mut ends = ends;
    let Some(mut end) = ends.pop() else {
        return pass;
    };
    if ends.is_empty() {
        return work(bank, plan, gate, pass, &mut end);
    }
    let (mine, rest) = bank.split(pass);
    thread::scope(
        thread::scope_env(),
        rt,
        |scope| -> Pass
            requires { IsSync R.row × IsSync G.row × IsSend H.row × IsPassOf bank.now mine
                × IsPassOf bank.now rest × IsBankOf plan.now bank.now }
            ensures { IsPassOf bank.entry.now result }
        {
            let own = OfBank(Snapshot::of(bank));
            match scope.spawn_with(own, move || work(bank, plan, gate, mine, &mut end)) {
                Ok(worker) => {
                    let rest = levels(rt, bank, plan, gate, rest, ends);
                    bank.join(worker.join(rt), rest)
                }
                Err(_) => levels(rt, bank, plan, gate, rest, ends),
            }
        },
    )
}
