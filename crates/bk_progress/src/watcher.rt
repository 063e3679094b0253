//! Who watches a job.

use bk_pool::{Gate, Open};

/// A gate that is called when the job is over, before a fault is reported.
pub trait Watcher: Gate {
    /// The job has its answer, or a fault.
    fn ended(&self);
}

impl Watcher for Open {
    fn ended(&self) {}
}
