/// How far the report of a run goes.
#[derive(Clone, Copy, Debug, PartialEq, Eq)]
pub enum Status {
    /// To the end of the order: each of its batches is there.
    Whole,
    /// To the first batch of the order that the feed does not hold.
    Missing,
}
