//! What a feed replies to a query.
#![tactic(auto)]

mod asking;
mod ordered;
mod replied;
mod replying;

pub use asking::ask;
pub use replied::Replied;
