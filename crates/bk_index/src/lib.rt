//! What a feed names, found by its name: a list with entries that are found by digests, and numbers
//! of places.
//!
//! A look-up of a digest is one in a hash table, and that of a place costs one access to a row of its
//! round. A feed chooses the bytes of its digests, so the table is keyed: by a `HashKey` that no feed
//! can know. Rounds may lie far apart: a place that does not fit into rows of a size that what is held
//! pays for is in an ordered map.
#![tactic(auto)]

mod hash_key;
mod keyed;
mod keyed_list;
mod place_index;

pub use hash_key::HashKey;
pub use keyed::Keyed;
pub use keyed_list::KeyedList;
pub use place_index::PlaceIndex;

#[cfg(test)]
mod tests;
