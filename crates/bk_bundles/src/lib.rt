//! Bundles: consecutive places of a scene as one place of another scene, which one worker takes as a whole. Each
//! transaction's receipt is a word of the bundle.
//!
//! The laws say that the bundles of a plan are a sound scene with edges that a planner can find, and that whatever a whole
//! run of them leaves is what the transactions leave one at a time. Nothing executes bundles yet.
#![tactic(auto)]

mod laws;

pub use laws::{
    bundle_runs_are_runs, bundles_are_sound, bundles_can_be_planned, bundles_of_plans,
    last_fold_is_fold,
};
