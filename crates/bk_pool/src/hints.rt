//! Which places might be ready.

/// One worker's end of the hints. Nothing is promised of it: a hint may be lost, given twice or
/// made up.
pub trait Hints {
    /// The place may be ready.
    fn put(&mut self, place: u32);

    /// A place to try. `None` ends the worker.
    fn take(&mut self) -> Option<u32>;

    /// Called once for each hint that was taken, when the worker is done with it.
    fn dealt(&mut self, place: u32);
}

/// Hints that are all lost.
#[derive(Drop)]
pub struct Nobody;

impl Hints for Nobody {
    fn put(&mut self, _place: u32) {}

    fn take(&mut self) -> Option<u32> {
        None
    }

    fn dealt(&mut self, _place: u32) {}
}
