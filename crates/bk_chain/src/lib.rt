//! Links of a chain of feeds: the line that `link` writes of a feed, and the check that such lines are those of one
//! ledger.
//!
//! [`Link`] is the answer of a feed that writes its [`LinkValue`] as a line. [`check_chain`] reads a text of such lines
//! and writes the verdict: the chain is good, or it is broken at the first line that does not link to the one before it.
#![tactic(auto)]

mod checking;
mod fault;
mod judging;
mod laws;
mod line;
mod link;
mod linking;
mod reading;
mod verdict;
mod words;

pub use checking::check_chain;
pub use fault::ChainFault;
pub use judging::judge;
pub use laws::{one_fold, one_result};
pub use line::push_link;
pub use link::LinkValue;
pub use linking::Link;
pub use reading::MOST_LINKS;
pub use verdict::{Break, Chain, ChainEnd, Verdict, verdict_text};

#[cfg(test)]
mod tests;
