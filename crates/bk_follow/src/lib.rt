//! A feed that is followed as it comes: its frames, their order, and the accounts after its batches.
//!
//! A [`Follower`] takes a feed in pieces, settles what came, and writes the report of a feed that ends. [`replay`] follows
//! a source to its end and writes the report: exactly the text that the definitions read off the feed.
#![tactic(auto)]

mod ahead;
mod answering;
mod book;
mod comparing;
mod differ;
mod fault;
mod follower;
mod framing;
mod gathering;
mod opening;
mod order;
mod pulling;
mod queries;
mod replaying;
mod settings;

pub use answering::{answer_by_ledger, answer_by_order};
pub use follower::{Follower, is_stop};
pub use framing::answer_by_frames;
pub use order::Order;
pub use replaying::replay;
pub use settings::Settings;
