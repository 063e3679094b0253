//! The words that the threads of an execution share, and what each thread knows of them.
#![tactic(auto)]

mod bank;
mod laws;
mod plays;
mod setting;
mod view;
mod words;

pub use bank::{Bank, Hold, Leaving, Pass, Step};
pub use laws::{holds_are_events, laid_words_show_opening, passes_are_events, releases_are_none};
pub use setting::Setting;
pub use view::{About, Ordered, Stage, View};
pub use words::Words;
