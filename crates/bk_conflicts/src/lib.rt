//! Which transactions have to wait for which: the plan of an execution on many threads.
//!
//! A plan says of each place of a list of transactions which words it reads and writes, how many
//! earlier places it waits for directly, and which later places wait for it. Every wait is for a
//! place in conflict, and of two places in conflict the later waits for the earlier, directly or
//! through places between. Making it takes time and memory linear in the transactions and the
//! waits.
#![tactic(auto)]

mod edges;
mod laws;
mod plan;
mod planner;
mod rows;
mod trail;
mod words;

pub use laws::{
    conflicts_are_clashes, scene_is_sound, shared_accounts_count, waits_are_conflicts,
    words_show_rows,
};
pub use plan::{Plan, SLOTS_END};
pub use planner::Planner;
pub use words::WordRef;
