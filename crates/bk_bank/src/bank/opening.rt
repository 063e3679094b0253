//! How a bank is made.
ghost use Rattle.std.specs.Prelude.{◌≡◌, ◌++◌, ℕ, ◌+◌, ◌*◌, ◌^◌, ◌<◌, ◌≤◌, IfOk, length, vec_len};
ghost use Rattle.std.specs.Vec.{vec_capacity};
ghost use Rattle.std.specs.Arc.{arc_value};
ghost use Rattle.bk_conflicts.specs.SceneOf.{CanRunOn, in_words};
ghost use Rattle.bk_conflicts.specs.Plan.{IsPlan};
ghost use Rattle.bk_bank.specs.Setting.{scene_of, setting_with};
ghost use Rattle.bk_bank.specs.Steps.{IsLaid};
ghost use Rattle.bk_bank.specs.Rule.{starting};
ghost use Rattle.bk_bank.specs.Bank.{IsPassOf};

use super::{Bank, Pass};
use crate::view::About;
use atomic_table::Table;
use bk_conflicts::{Plan, scene_is_sound};
use bk_rules::{Account, State};
use std::alloc::{AllocError, Global};
use std::snapshot::Snapshot;
use std::sync::Arc;

// Puts the two words of each account at the end of a list that has room for them.
fn push_accounts(words: &mut Vec<u64>, numbers: &[Account])
    requires room { vec_len words.old + 2 * length numbers.now ≤ vec_capacity words.old }
    ensures items { words.new.items ≡ words.old.items ++ in_words numbers.now }
    ensures len { vec_len words.new ≡ vec_len words.old + 2 * length numbers.now }
    ensures capacity { vec_capacity words.new ≡ vec_capacity words.old }
{
    for account in numbers {
        words.push_reserved(account.balance);
        words.push_reserved(account.seq);
    }
}

// The opening words.
fn lay(alloc: Global, plan: &Plan, state: &State) -> Result<Vec<u64>, AllocError>
    requires plan { IsPlan plan.now }
    requires runs { CanRunOn plan.now state.now }
    ensures { IfOk result (λ words. IsLaid (scene_of (setting_with plan.now state.now))
        words.items) }
{
    let numbers = state.numbers();
    let mut words = Vec::with_capacity(alloc, 2 * numbers.len() + 2 * plan.len() + 1)?;
    push_accounts(&mut words, numbers);
    for place in 0..plan.len() {
        words.push_reserved(plan.before(place as u32) as u64);
        words.push_reserved(0);
    }
    words.push(0)?;
    Ok(words)
}

impl Bank {
    /// A bank of the opening words, with the only pass to it, O(n). It shares the plan.
    pub fn new(alloc: Global, plan: &Arc<Plan>, state: &State) -> Result<(Bank, Pass), AllocError>
        requires { CanRunOn (arc_value plan.now) state.now }
        ensures own { IfOk result (λ b. IsPassOf b.0 b.1) }
        ensures setting { IfOk result (λ b. b.0.setting
            ≡ setting_with (arc_value plan.now) state.now) }
        ensures view { IfOk result (λ b. b.1.view
            ≡ starting (setting_with (arc_value plan.now) state.now)) }
    {
        let plan = Arc::try_clone(plan)?;
        let _ = plan.len();
        scene_is_sound();
        let words = lay(alloc, &plan, state)?;
        let about = About {
            plan: Snapshot::of(&*plan),
            opening: Snapshot::of(state),
        };
        let (table, seat) = Table::of_words(alloc, words.as_slice(), &about)?;
        Ok((Bank { table, plan }, Pass { seat }))
    }
}
