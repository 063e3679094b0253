//! The lines and the text of a report, and proofs of accounts.
//!
//! A report is lines in groups, put into a [`Page`] that goes out whenever it is full. Whatever puts lines need not ask
//! whether the sink failed: [`Page::end`] answers with the fault, of which the first `written` bytes of all that was put
//! are out. [`proof_of`] makes the proof of an account, and [`check_proof`] judges the text of one.
#![tactic(auto)]

mod checking;
mod groups;
mod laws;
mod leaves;
mod line;
mod page;
mod proof;
mod reading;
mod report;
mod rows;
mod sheets;

pub use checking::{MOST_PROOF, check_proof, check_proof_of};
pub use groups::{put_accounts, put_batches, put_receipts};
pub use laws::made_proofs_are_good;
pub use leaves::leaves_of;
pub use line::Line;
pub use page::{Page, push_line};
pub use proof::{Proof, proof_of};
pub use report::{Parts, write_run};
pub use sheets::{Sheets, WORTH_THREADS, sheets_for};
