//! Jobs of the command line over sources and sinks.
//!
//! [`run_watched`] runs a job: it writes the answer to one sink, or the fault in one line to another, and returns how the
//! program ends. [`open_and_run`] opens the files that the job names first.
#![tactic(auto)]

mod answering;
mod chaining;
mod claiming;
mod comparing;
mod feeds;
mod following;
mod inputs;
mod job_end;
mod laws;
mod listing;
mod machine;
mod opening;
mod over;
mod picking;
mod queries;
mod running;
mod scheduling;
mod texts;

pub use inputs::{Access, Inputs, Opens, Stream};
pub use job_end::JobEnd;
pub use laws::{answers_are_out, answers_fail_no_device, exits_of_jobs, refusals_blame_bytes};
pub use opening::open_and_run;
pub use running::{Watch, run_watched};
