//! The committee: its members' keys and weights, how much weight is a quorum, and who leads a round.
//!
//! A committee is read of exactly the payloads that encode one, and its keys and weights are those that the payload
//! encodes. Each member's key for tags is prepared once, when the committee is read.
#![tactic(auto)]

mod bad;
mod committee;
mod laws;
mod reading;

pub use bad::Bad;
pub use committee::Committee;
pub use laws::{committee_grammar, leaders_in_turn, quorums_meet};

#[cfg(test)]
mod tests;
