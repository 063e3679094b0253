//! How far a job is: a line on standard error while it runs.
//!
//! A [`Progress`] counts the bytes that are read, through a [`Metered`] source, and the transactions that are executed,
//! since it is a gate. It shows both in one line: rewritten in place ten times a second at most where standard error is a
//! terminal, and else as a new line once a second at most. A job that ends before that shows nothing.
//!
//! What it shows is part of no contract but one: a `Metered` source is the source in it.
#![tactic(auto)]

mod display;
mod metered;
mod progress;
mod watcher;

pub use display::Display;
pub use metered::Metered;
pub use progress::{Manner, Progress};
pub use watcher::Watcher;
