//! What executing batches gives: how many transactions each holds, what became of each, and the accounts after them.
//!
//! A [`Ledger`] is made of opening accounts and executes batches after those executed before, by any number of workers.
//! It holds then what their transactions give one at a time, in the order of the batches. Batches come as bytes: this
//! crate knows nothing of certificates or of the order that they come from.
#![tactic(auto)]

mod batches;
mod executing;
mod feeds;
mod handing;
mod held;
mod laws;
mod ledger;
mod looking;
mod planning;
mod reading;
mod ready;
mod running;
mod slice;
mod summary;
mod touched;
mod turns;
mod widening;
mod workers;

pub use batches::Batches;
pub use bk_pool::{ExecFault, Gate, Open};
pub use laws::slices_leave_fold;
pub use ledger::Ledger;
pub use summary::Summary;
pub use touched::Touched;
