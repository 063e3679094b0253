//! The key of the hash tables.

ghost use Rattle.std.specs.RandomState.{initial_hasher};
ghost use Rattle.std.specs.Hash.DefaultHasher.{initial};
ghost use Rattle.std.specs.Option.{option_map_or};

use std::hash::{BuildHasher, DefaultHasher, RandomState};
use std::random::RandomSource;

/// The key by which digests are hashed, with SipHash-1-3.
///
/// A feed chooses the bytes of its digests. If it knew the key, it could choose digests with one hash,
/// and each look-up would go over all of them. A key costs time or saves it, and changes no result.
#[derive(Clone, Copy)]
pub struct HashKey {
    // `None` is the key of zeros.
    random: Option<RandomState>,
}

impl HashKey {
    /// A random key, or the fixed one where the system gives no random bytes.
    pub fn new(rt: &impl RandomSource) -> HashKey {
        HashKey {
            random: RandomState::new(rt).ok(),
        }
    }

    /// The same key for all, which a feed may know: for tests and trials.
    pub fn fixed() -> HashKey {
        HashKey { random: None }
    }
}

impl BuildHasher for HashKey {
    type Hasher = DefaultHasher;

    ghost build_hasher = { λ key. option_map_or initial_hasher key.random initial };

    fn build_hasher(&self) -> DefaultHasher {
        match &self.random {
            Some(state) => state.build_hasher(),
            None => DefaultHasher::new(),
        }
    }
}
