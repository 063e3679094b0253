//! The certificates that are held, by round: which of them are admitted, and whom they name as
//! parents.
#![tactic(auto)]

mod admitting;
mod buffers;
mod laws;
mod members;
mod names;
mod preparing;
mod rounds;
mod rows;
mod slots;
mod table;
mod votes;
mod waking;
mod weights;

pub use laws::{admission_by_parents, good_is_fit};
pub use members::Members;
pub use rounds::Rounds;
