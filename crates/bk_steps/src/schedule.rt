//! A list of events, from the first to the last.

ghost use Rattle.std.specs.Prelude.{◌≡◌, IfOk, IfErr, OnOk};
ghost use Rattle.bk_conflicts.specs.SceneOf.{CanRunOn, scene_of};
ghost use Rattle.bk_steps.specs.Schedule.{IsWholeAmong, IsFoldOf, IsFault};
ghost use Rattle.bk_steps.specs.private.Schedule.{HasRun, IsStopped};

use crate::event::Event;
use crate::machine::Machine;
use crate::outcome::{Outcome, ScheduleFault};
use bk_conflicts::Plan;
use bk_rules::State;
use std::alloc::Global;

/// Does these events, in their order, with so many workers. It is `Ok` exactly where they are a
/// whole run, with the accounts and the receipts of the places one at a time; else the error names
/// the first event that is refused, or the least place that is not done when all were allowed.
pub fn run_schedule(
    alloc: Global,
    plan: Plan,
    state: State,
    workers: u32,
    events: &[Event],
) -> Result<Outcome, ScheduleFault>
    requires { CanRunOn plan state }
    ensures whole { IfOk result (λ o. IsWholeAmong (scene_of plan state) workers events.now) }
    ensures fold { IfOk result (λ o. IsFoldOf plan state o) }
    ensures fault { IfErr result (λ fault. IsFault (scene_of plan state) workers events.now fault) }
{
    let mut machine = Machine::new(alloc, plan, state, workers)?;
    run_all(&mut machine, events)?;
    machine.outcome(alloc)
}

// Does the events, up to the first that is refused.
fn run_all(machine: &mut Machine, events: &[Event]) -> Result<(), ScheduleFault>
    ensures ran { OnOk result (HasRun machine.old events.now machine.new) }
    ensures stopped { IfErr result (λ fault. IsStopped machine.old events.now fault) }
{
    for index in 0..events.len() {
        if let Err(code) = machine.step(events[index]) {
            return Err(ScheduleFault::Refused { index, code });
        }
    }
    Ok(())
}
