//! What is wrong with a feed: what keeps the certificates that wait from being admitted, which batches its order lacks, and
//! all evidence of collisions and twins.
//!
//! [`Waiting`] and [`Missing`] are answers of a feed whose order was found, and [`Evidence`] is one of the frames of a feed
//! that may be stopped. Each ends with whether it has a line.
#![tactic(auto)]

mod colliding;
mod evidence;
mod evidence_laws;
mod graph;
mod lacking;
mod laws;
mod line;
mod missing;
mod rejects;
mod twins;
mod waiting;

pub use evidence::Evidence;
pub use evidence_laws::{evidence_is_exact, evidence_stays, evidence_stops, one_list_of_evidence};
pub use laws::{first_is_missing, gained_is_whole, waits_where_kept};
pub use line::{Line, push_lines};
pub use missing::Missing;
pub use waiting::Waiting;
