//! The container: a feed of bytes as a list of frames.
#![tactic(auto)]

mod counted;
mod cutter;
mod device;
mod fault;
mod feed;
mod fuse;
mod judging;
mod laws;
mod part;
mod pulling;
mod writing;

pub use counted::Counted;
pub use cutter::Cutter;
pub use device::{Failed, Sink, Source};
pub use fault::{FaultCode, FeedFault};
pub use feed::Feed;
pub use fuse::Fuse;
pub use laws::{
    counted_sink, counted_source, fault_is_the_feeds, feed_or_fault, front_and_whole, fused_sink,
    fused_source, one_frame_was_read, pieces_join, whole_frames_so_far,
};
pub use pulling::{PIECE, pull_frames};
pub use writing::{WriteFault, push_all, write_frame};

#[cfg(test)]
mod tests;
