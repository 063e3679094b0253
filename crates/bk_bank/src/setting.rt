//! What an execution is about.

ghost use Rattle.std.specs.Prelude.{◌≡◌, ◌*◌, length};

use bk_conflicts::Plan;
use bk_rules::State;

/// A plan, and the accounts that it begins with. No value of it is made.
pub struct Setting {
    pub plan: Plan,
    pub opening: State,
}

// How many words the accounts have: two each.
pub(crate) fn word_count(plan: &Plan) -> usize
    ensures { result ≡ 2 * length plan.now.ids }
{
    // A plan's length also says that its accounts are few.
    let _ = plan.len();
    2 * plan.accounts().len()
}
