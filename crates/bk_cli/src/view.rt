//! The tables and lines that a job shows of a feed, and what it says is wrong with it.

/// A table with a row for each payment, or for each account that a transaction has.
#[derive(Clone, Copy, Debug, PartialEq, Eq)]
pub enum Table {
    /// The payments of the transactions of the order.
    Transactions,
    /// What each transaction of the order does to each of its accounts.
    Postings,
}

/// What is shown of a feed.
#[derive(Clone, Copy, Debug, PartialEq, Eq)]
pub enum View {
    /// The payments of the transactions of the order, as a table.
    Transactions,
    /// What each transaction of the order does to each of its accounts, as a table.
    Postings,
    /// The batches of the order, as a table.
    Batches,
    /// The accounts at both ends, and what lies between them, in one line.
    Link,
}

/// What is wrong with a feed.
#[derive(Clone, Copy, Debug, PartialEq, Eq)]
pub enum Diagnosis {
    /// What keeps the certificates that wait from being admitted.
    Waiting,
    /// The batches that the order names and no frame has.
    Missing,
    /// All collisions and twins.
    Evidence,
}
