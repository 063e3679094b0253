//! Transactions and batches: their bytes, read and written, with one canonical encoding a value.
//!
//! `Tx::decode` and `read_batch` return exactly what the bytes encode, and nothing where they encode nothing.
//! `Tx::encode` and `write_batch` write the one encoding of a transaction and of a batch. A `Tx` that has none cannot
//! be made.
#![tactic(auto)]

mod batch;
mod body;
mod declared;
mod laws;
mod payments;
mod pushing;
mod reading;
mod tx;
mod writing;

pub use batch::{Slice, read_batch, write_batch};
pub use body::Body;
pub use declared::{Declarations, Declared, MOST_DECLARED};
pub use laws::{one_spelling_of_a_batch, one_spelling_of_a_transaction};
pub use payments::{MOST_PAYMENTS, Payment, Payments};
pub use pushing::push_transactions;
pub use tx::Tx;

#[cfg(test)]
mod tests;
