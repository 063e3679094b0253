//! The committed anchors of the certificates that are held.
//!
//! A history is swept a round at a time, as the set of its members. Only lists of anchors take
//! memory.
#![tactic(auto)]

mod anchors;
mod committing;
mod history;
mod laws;
mod walk;

pub use anchors::{anchor, votes};
pub use committing::committed;
pub use history::{first_level, next_level, reaches};
pub use laws::{anchors_grow, committed_anchors, voted_is_reached};
pub use walk::Walk;
