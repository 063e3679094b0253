//! The tables of a feed, as CSV: the batches of its order, the payments of its transactions, and what these do to each
//! account.
//!
//! [`Batches`], [`Transactions`] and [`Postings`] are the answers of a feed. The rows of the last two, [`TableRows`], are
//! written while an order grows, or all at once; all memory is taken before the first byte is out. [`read_accounts`] reads
//! the list of accounts by which rows are picked.
#![tactic(auto)]

mod accounts;
mod batches;
mod laws;
mod line;
mod listing;
mod naming;
mod parts;
mod payment;
mod placing;
mod posting;
mod postings;
mod rows;
mod sheet;
mod table;
mod text;
mod texts;
mod transactions;
mod walk;

pub use accounts::Accounts;
pub use batches::{BatchRow, Batches};
pub use laws::{
    counts_once, csv_reads_back, list_picks_postings, list_picks_rows, one_batch_table,
    one_payment_table, one_posting_table, out_is_all_in, paid_adds_up, payloads_hold_transactions,
    places_are_rows, postings_are_entries, rows_are_batch_lines, rows_are_tx_lines,
    rows_have_status,
};
pub use listing::{MOST_LIST, read_accounts};
pub use payment::{Asked, Kind, PaymentRow};
pub use posting::Posting;
pub use postings::{PostingRows, Postings};
pub use table::TableRows;
pub use transactions::{PaymentRows, Transactions};

#[cfg(test)]
mod tests;
