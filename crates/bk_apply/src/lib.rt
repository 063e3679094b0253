//! The batches of a feed executed in feed order, one at a time or by a list of events.
//!
//! [`apply`] reads a whole feed, executes its batches in feed order, and writes exactly the text of the apply report, or
//! returns the one fault of the feed and writes nothing. No order of certificates is needed for it.
#![tactic(auto)]

mod applying;
mod laws;
mod scheduling;

pub use applying::apply;
pub use laws::{money_is_that_of_genesis, one_report};
pub use scheduling::{ScheduleStop, apply_schedule};
