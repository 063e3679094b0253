//! What a seat at the table knows, and the rule of the words.
use crate::setting::Setting;
use atomic_table::TableRule;
use bk_conflicts::Plan;
use bk_rules::State;
use std::snapshot::Snapshot;

/// What a bank was made of.
#[derive(Drop)]
pub struct About {
    pub plan: Snapshot<Plan>,
    pub opening: Snapshot<State>,
}

/// The stage that a seat is at. A clause reads an array as a list, of any length.
pub enum Stage {
    Idle,
    /// The place, the words that were read with their values, newest first, the words that are
    /// written, and whether the moved word is.
    Holding(u64, [(u64, u64); 0], [u64; 0], bool),
    /// The place, how many successors are released, and what the last release found.
    Leaving(u64, u64, u64),
    /// It was joined to another.
    Spent,
}

/// What a seat knows. No value of it is made.
pub struct View {
    pub setting: Setting,
    /// The places that it saw done.
    pub seen: [u64; 0],
    pub stage: Stage,
}

/// The rule of the words: they show a course of the scene.
pub struct Ordered;

impl TableRule<(), View, About> for Ordered {
    ghost use Rattle.bk_bank.specs.Setting.{scene_of, setting_of};
    ghost use Rattle.bk_bank.specs.Rule.{IsOrdered, starting};

    ghost holds = { λ about. IsOrdered (scene_of (setting_of about)) };

    ghost first = { λ about. starting (setting_of about) };
}
