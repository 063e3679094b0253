//! What people ask about a feed beside its report.
//!
//! [`anchor_rows`] says of each odd round whether its anchor is committed, and by how many votes. [`push_rows`] adds
//! the lines of such rows to a text.
//!
//! A [`Statement`] is read batch by batch: it follows one account from its opening to its closing balance, and has a line
//! for each transaction in which the account plays a part.
#![tactic(auto)]

mod anchors;
mod entry;
mod laws;
mod marks;
mod parts;
mod statement;

pub use anchors::{AnchorRow, AnchorState, anchor_rows, push_rows};
pub use entry::{Entry, Role};
pub use laws::{amounts_add_up, voted_is_committed};
pub use statement::Statement;
