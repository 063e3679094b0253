//! Verdicts on certificates: which local rule the bytes of a certificate break first, if they break any.
//!
//! Certificates are judged in place, many together: first by the rules that need no hash, then all ids are hashed side
//! by side, then all tags. Only the header of a good certificate is copied. The frames of a feed are judged in parts of as
//! many each, on as many threads as there are processors.
#![tactic(auto)]

mod checking;
mod each;
mod finding;
mod frames;
mod laws;
mod rule;
mod screening;
mod tagging;
mod tests_of_rules;
mod verdict;

pub use checking::{check, check_all};
pub use each::check_each;
pub use finding::{Found, find_each};
pub use frames::find_all;
pub use laws::one_verdict;
pub use rule::{MOST_ROUND, Rule};
pub use verdict::{Checked, Verdict};
