//! How a feed is followed.

use bk_base::Workers;
use bk_order::HashKey;

/// How a feed is followed. What is found does not depend on it.
#[derive(Clone, Copy)]
pub struct Settings {
    /// How many threads execute at most.
    pub workers: Workers,
    /// The key of the tables by digest.
    pub key: HashKey,
}

/// Of a feed that nothing is executed of.
pub(crate) fn alone(key: HashKey) -> Settings {
    Settings {
        workers: Workers::one(),
        key,
    }
}
