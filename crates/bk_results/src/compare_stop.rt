//! Why two sources do not agree.

use crate::differ::Differ;
use crate::fault::Fault;

/// Why two sources do not agree.
#[derive(Clone, Copy, Debug, PartialEq, Eq)]
pub enum CompareStop {
    /// The feed of the first source was not followed to its end. The second source is not read.
    First(Fault),
    /// The feed of the first source was followed to its end, and that of the second was not.
    Second(Fault),
    /// Both were followed to their ends, and they differ.
    Differ(Differ),
}
