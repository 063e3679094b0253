//! Scripts: the text of a feed's contents, line by line, and the feed that it makes.
//!
//! [`make`] reads a script, takes its lines in turn, and writes exactly the bytes of the feed that they make, or names the
//! first line with a fault and writes nothing. [`Script`] is what the lines so far say.
//!
//! [`read_events`] reads the other language of this crate, a list of events of an execution, one a line. [`read_list`]
//! reads any list that is taken line by line.
#![tactic(auto)]

mod accounts;
mod batch;
mod certificates;
mod events;
mod fault;
mod frames;
mod line;
mod listing;
mod making;
mod names;
mod parts;
mod reading;
mod script;
mod sealing;
mod transactions;
mod words;

pub use bk_results::{LinesFault, ScriptCode, ScriptFault};
pub use events::{Events, read_events};
pub use fault::Stop;
pub use line::is_skipped;
pub use listing::{LineList, read_list};
pub use making::{MOST_SCRIPT, make};
pub use reading::read_text;
pub use script::Script;
pub use words::{number, pieces};
