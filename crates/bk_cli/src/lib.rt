//! The command line: from words to a job, and from the fault of a job to its line and its exit status.
//!
//! [`parse_line`] reads the words of a command line. [`report`] writes the one
//! line of a fault, [`tell`] the same and what is wrong in words, [`tell_remarks`] what there is to remark beside an
//! answer, and [`Exit::after`] is the exit status that goes with it. Nothing here reads a file or does a job.
#![tactic(auto)]

mod about;
mod args;
mod commands;
mod diagnosis_help;
mod exit;
mod explain;
mod fault_line;
mod help;
mod job;
mod job_fault;
mod line;
mod links;
mod list_fault;
mod making;
mod more_help;
mod notes;
mod parsing;
mod parts;
mod remarking;
mod remarks;
mod shaped;
mod shown;
mod strict;
mod table_help;
mod telling;
mod unopened;
mod verb;
mod view;
mod window;
mod words;

pub use exit::Exit;
pub use fault_line::report;
pub use job::{Job, is_input};
pub use job_fault::JobFault;
pub use line::{Piece, ShortLine, short_line};
pub use links::Links;
pub use list_fault::ListFault;
pub use notes::Notes;
pub use parsing::{Line, parse_line};
pub use remarking::tell_remarks;
pub use remarks::Remarks;
pub use strict::judge;
pub use telling::{tell, tell_of, tell_unopened};
pub use unopened::Unopened;
pub use view::{Diagnosis, Table, View};
pub use window::Window;
