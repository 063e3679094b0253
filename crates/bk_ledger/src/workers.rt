//! How many workers execute a slice.

ghost use Rattle.std.specs.Prelude.{◌≤◌};

use std::thread::{Threads, available_parallelism};

/// Fewer transactions are not worth the start of threads.
pub(crate) const WORTH_THREADS: usize = 2_048;

// So many processors are left to the threads that prepare the slices after the one that is executed.
const PREPARING: usize = 2;

// So many workers there may be with any number of processors.
const ALWAYS: usize = 2;

/// How many workers execute a slice at once, of a number that may: one for each processor that the preparation of later
/// slices leaves, and two at least.
pub(crate) fn workers_at_once(rt: &impl Threads, workers: usize) -> usize
    requires { 1 ≤ workers }
    ensures some { 1 ≤ result }
    ensures allowed { result ≤ workers }
{
    if workers <= ALWAYS {
        return workers;
    }
    match available_parallelism(rt) {
        Ok(processors) => {
            let left = processors.get().saturating_sub(PREPARING);
            workers.min(left.max(ALWAYS))
        }
        Err(_) => ALWAYS,
    }
}
