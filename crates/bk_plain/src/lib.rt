//! Plain slow bodies of the definitions on which the ledger's part of a report rests.
//!
//! Each function computes one definition of `specs/` in the words of the definition, over lists of rows: the effect of
//! one transaction, a list of transactions one at a time, and the tree hash of a state. Nothing here is made for speed,
//! and nothing calls the code that the product runs: a definition that says something else than is meant gives a wrong
//! result here.
#![tactic(auto)]

mod accounts;
mod asked;
mod change;
mod digest;
mod fold;
mod outcome;
mod status;
mod unfit;

pub use accounts::account_at;
pub use asked::{payments_of, receivers_of};
pub use change::{Change, rows_after};
pub use digest::{root_of, row_text, state_of};
pub use fold::{Folded, fold_of};
pub use outcome::{Outcome, changes_of, outcome_of};
pub use status::status_of;
pub use unfit::Unfit;
