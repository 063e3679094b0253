//! Whether the feeds of two sources agree.
#![tactic(auto)]

mod agreeing;
mod compared;

pub use agreeing::compare_with_gaps;
pub use compared::Compared;
