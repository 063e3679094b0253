use thiserror::Error;

/// Why a payload gave no committee.
#[derive(Clone, Copy, Debug, PartialEq, Eq, Error)]
pub enum Bad {
    /// The first byte, the number of members, is 0 or above 128.
    #[error("the number of members is not 1 to 128")]
    Count = 1,
    /// The payload has no byte, or after the first another number than 32 for each member (36 in version Two).
    #[error("the length does not fit the number of members")]
    Length = 2,
    /// Memory ran out. The payload is a committee.
    #[error("out of memory")]
    Memory = 3,
    /// A member's weight is 0. It comes in version Two alone.
    #[error("a weight is 0")]
    Weight = 4,
}
