//! A summary of a feed: what it begins with, how much it holds, how much of that is ordered, what became of its
//! transactions, and what its accounts hold in the end.
//!
//! [`Summarize`] is the answer of a feed that writes the text of its [`Summary`].
#![tactic(auto)]

mod anchors;
mod batches;
mod certs;
mod laws;
mod payloads;
mod summary;
mod summing;
mod text;
mod txs;
mod writing;

pub use laws::digests_are_of_payloads;
pub use payloads::committee_digest;
pub use summary::{AnchorCounts, BatchCounts, CertCounts, MemberCounts, Summary, TxCounts};
pub use text::push_summary;
pub use writing::Summarize;
