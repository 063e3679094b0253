//! Workers over the bank: any number of threads execute the places of a plan, in any order that
//! the bank allows. `execute` answers what the places give one at a time, or which place is the
//! least that is not done.
#![tactic(auto)]

mod deques;
mod hints;
mod laws;
mod levels;
mod outcome;
mod place;
mod run;
mod work;

pub use bk_steps::Outcome;
pub use hints::{Hints, Nobody};
pub use laws::scenes_show_receipts;
pub use outcome::{ExecFault, outcome_of, outcome_onto};
pub use place::{Gate, Open, run_place};
pub use run::{execute, execute_here_onto, execute_onto, execute_with};
