//! How many workers execute a job.

use bk_base::Workers;
use bk_cli::Job;
use bk_results::Query;
use std::thread::{Threads, available_parallelism};

// The workers of a run are 64 at most.
const MOST: usize = 64;

// One worker for each processor; one where the number of processors is not known.
fn all_workers(rt: &impl Threads) -> Workers {
    let count = match available_parallelism(rt) {
        Ok(processors) => processors.get().min(MOST) as u8,
        Err(_) => 1,
    };
    Workers::new(count).unwrap_or(Workers::one())
}

// How many workers execute for a query: those of the command line, where it can say it, else one for each processor.
fn workers_for(rt: &impl Threads, asked: &Query, workers: Workers) -> Workers {
    match *asked {
        Query::State { .. } | Query::Statement { .. } => workers,
        Query::Order
        | Query::Anchors
        | Query::Account { .. }
        | Query::Receipt { .. }
        | Query::Proof { .. } => all_workers(rt),
    }
}

/// How many workers execute the batches of a job: those of the command line, where it can say it, else one for each
/// processor. A job that executes none has one.
pub(crate) fn workers_of(rt: &impl Threads, job: &Job) -> Workers {
    match job {
        Job::Run { workers, .. }
        | Job::CheckReport { workers, .. }
        | Job::Summary { workers, .. }
        | Job::Show { workers, .. }
        | Job::Pick { workers, .. }
        | Job::Follow { workers, .. } => *workers,
        Job::Ask { asked, workers, .. } => workers_for(rt, asked, *workers),
        Job::Compare { .. } => all_workers(rt),
        _ => Workers::one(),
    }
}
