//! From the frames of a feed to the committed order.
//!
//! An `Intake` takes the frames after the genesis in whatever pieces they come, and reports which
//! certificates are rejected, whether a collision or twins stop the feed, and, where nothing does,
//! the committed anchors, the order and its batches. All of it is of the frames taken so far as a
//! set: their order counts for nothing but the numbers of the rejected. An `Ahead` judges groups of
//! frames before an `Intake` takes them, each in a thread of its own.
#![tactic(auto)]

mod ahead;
mod intake;
mod judging;
mod laws;
mod reject;
mod settling;
mod stop;
mod table;
mod tally;

pub use ahead::Ahead;
pub use bk_index::HashKey;
pub use intake::Intake;
pub use judging::JudgedFrames;
pub use laws::{
    frames_are_a_set, frames_have_one_list, frames_have_one_stop, order_of_frames_grows,
    parts_agree,
};
pub use reject::Reject;
pub use stop::Stop;
pub use tally::{Count, Tally};
