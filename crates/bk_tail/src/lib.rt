//! A feed that is followed while it grows, and its table written as it becomes final.
//!
//! [`tail_table`] reads a feed a piece at a time. After each piece it settles the whole frames so far, and writes the rows
//! of the places that this executed before it reads more. Rows that are out stay. Where it is waited for, a source has no
//! end.
#![tactic(auto)]

mod laws;
mod piece;
mod tail;

pub use laws::rows_stay;
pub use tail::tail_table;
