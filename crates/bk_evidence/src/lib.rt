//! What is held of a feed, and the evidence against who made it: batches and certificates, the
//! collisions among them, and the twins of a round.
//!
//! Each distinct pair that was offered is kept. An offer mostly takes constant time, and the logarithm
//! of what is held whatever the bytes of its id. Every answer is of all that is held, whatever the
//! order of the offers.
#![tactic(auto)]

mod batches;
mod evidence;
mod held;
mod laws;
mod least;
mod offer;
mod places;

pub use batches::{BatchOffer, BatchRef, Batches};
pub use evidence::{Evidence, Together};
pub use held::Held;
pub use laws::{
    clear_is_neither, collision_of_members, evidence_of_members, one_answer, one_batch_answer,
    one_collision, one_evidence,
};
pub use offer::Offer;
