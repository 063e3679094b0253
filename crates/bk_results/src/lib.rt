//! How the calls of the replayer end: their answers and their faults, as small values that own nothing.
//!
//! A caller that only reports how a call ended needs this crate alone, and none of what makes the calls.
#![tactic(auto)]

mod compare_stop;
mod differ;
mod fault;
mod flaw;
mod lines_fault;
mod query;
mod script_fault;
mod status;
mod wrong_tag;

pub use compare_stop::CompareStop;
pub use differ::{Agreed, Differ, SetupPart};
pub use fault::Fault;
pub use flaw::Flaw;
pub use lines_fault::LinesFault;
pub use query::{Query, Reply};
pub use script_fault::{ScriptCode, ScriptFault};
pub use status::Status;
pub use wrong_tag::WrongTag;
