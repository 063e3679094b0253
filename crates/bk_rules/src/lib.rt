//! The transaction rule in both versions, and the accounts that it runs on.
#![tactic(auto)]

mod account;
mod hints;
mod ids;
mod laws;
mod local;
mod numbers;
mod ops;
mod part;
mod paying;
mod receipt;
mod roles;
mod rule;
mod run;
mod state;
mod widen;

pub use account::{Account, account_leaf};
pub use ids::Ids;
pub use laws::{
    effect_is_outcome, fold_appends, fold_by_place, fold_keeps_ledger, ledger_is_kept,
    part_is_enough, room_is_left, rows_are_known, rule_is_local, rule_of_rows, total_is_kept,
};
pub use local::Local;
pub use ops::Op;
pub use paying::run_ops;
pub use receipt::{PackedReceipt, Receipt, Status};
pub use rule::{Effect, apply_local, settle};
pub use run::{run_in_order, run_near};
pub use state::State;

#[cfg(test)]
mod op_tests;
#[cfg(test)]
mod tests;
