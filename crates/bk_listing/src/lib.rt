//! The frames of a feed as lines of text: what each holds, and how a certificate fares by the local rules.
//!
//! [`list_frames`] reads a feed from a source and writes a line for each whole frame before any fault, a group of frames
//! at a time. What the sink received is exactly the text that the definitions read off these frames. The order of the
//! feed's certificates, its twins and its collisions are not looked at.
#![tactic(auto)]

mod forged;
mod lines;
mod lister;
mod listing;
mod rows;

pub use listing::{Listed, list_frames};
