//! The order of certificates, and the batches in it.
//!
//! Each committed anchor adds its history, less what is ordered already, by round and author.
#![tactic(auto)]

mod batches;
mod digests;
mod flat;
mod laws;
mod part;

pub use batches::{BatchList, batches_of};
pub use flat::{Flat, whole_order};
pub use laws::{batches_grow, batches_in_steps, one_order, order_grows, order_of_history};
