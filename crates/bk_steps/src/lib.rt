//! The interleavings of an execution, as a pure machine over its scene: which event is allowed
//! when, and why every whole run ends as the places one at a time do. `Machine` runs them, one at a
//! time, and refuses those that are not allowed.
#![tactic(auto)]

mod event;
mod laws;
mod machine;
mod outcome;
mod schedule;
mod seat;
mod settling;
mod stage;
mod waits;

pub use event::Event;
pub use laws::{
    closed_under_chains, events_keep_course, one_answer, one_verdict, opening_is_kept,
    order_makes_no_difference, runs_leave_fold, whole_runs_are_fold, whole_runs_exist,
};
pub use machine::Machine;
pub use outcome::{Outcome, ScheduleFault};
pub use schedule::run_schedule;
pub use seat::Seat;
pub use settling::settle_words;
pub use stage::Stage;
