//! Laws of reports, replies and comparisons: what the definitions of a feed's answers say together.
//!
//! Every byte string comes to exactly one thing, every query of a feed that has a report to one reply, and every two feeds
//! to one comparison. What a feed has ordered, executed and rejected stays so as it grows, in whatever order its frames
//! come, and so it is of a Follower between its pieces. Every list of events comes to one thing. The proof of an account
//! is good for the state in the report. A digest binds the accounts that it is the digest of, but for a collision of
//! SHA-256. Nothing else stands on this crate.
#![tactic(auto)]

mod binding;
mod laws;
mod runs;

pub use binding::{
    chains_count_once, digests_suffice, good_paths_hold, good_proofs_hold, links_are_of_reports,
    links_fit, one_proof, roots_bind, states_bind,
};
pub use laws::{
    accounts_fit, claims_have_one_verdict, exactly_one_answer, exactly_one_comparison,
    exactly_one_reply, exactly_one_schedule_answer, executed_is_fold, fault_or_apply_report,
    few_places, names_first_fault, order_so_far_stays, ordered_is_final, proofs_of_feeds_are_good,
    receipts_stay, rejected_are_broken, rejected_stay, rejects_are_counted,
    report_ignores_frame_order, stops_stay,
};
pub use runs::{one_answer, run_keeps_money};
