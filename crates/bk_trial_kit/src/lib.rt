//! What the programs of trials share: the tally of their comparisons, and sources and sinks in memory that move few
//! bytes a call and fail.
//!
//! A tally counts each comparison once, and no error of a comparison is lost. A source gives its bytes in their order and
//! a sink keeps what it took, also over a call that fails, and a call fails only where the device says so.
#![tactic(auto)]

mod device;
mod frames;
mod tally;

pub use device::{Device, EVER, Reader, Writer};
pub use frames::{ends_of, frame, part, with_frames};
pub use tally::Tally;
