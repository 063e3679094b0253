//! The verdict on what somebody claims to be the report of a feed.
//!
//! [`check_report`] makes the report of a feed, holds it in memory, and compares a claim with it byte for byte, a piece at
//! a time. The text of the verdict names the first line that differs.
#![tactic(auto)]

mod checking;
mod comparing;
mod lines;
mod verdict;
mod wording;

pub use checking::check_report;
pub use verdict::{ClaimStop, Verdict};
