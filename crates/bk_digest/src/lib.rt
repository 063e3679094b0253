//! Digests for the other crates: SHA-256 with a tag byte in front, HMAC, and the Merkle tree hash
//! of RFC 6962 with its audit paths.
//!
//! Each digest is exactly the one that its standard defines, and a path check answers true exactly
//! where the path leads from the leaf to the root. That two texts have different digests is not
//! promised. Only a text, an audit path and the tags of many ids take memory.
//!
//! The tags of many ids and the hashes of a tree are computed eight at a time, in the lanes of
//! vectors.
#![tactic(auto)]

mod block;
mod digest;
mod laws;
mod mac;
mod perfect;
mod tags;
mod tree;

pub use digest::{Digest32, tagged};
pub use laws::{
    climb_goes_up, own_path_leads_to_root, path_is_merkle_audit_path, root_is_merkle_tree_hash,
};
pub use mac::{MacKey, hmac};
pub use tags::{ToTag, tags_each};
pub use tree::{audit_path, check_path, tree_root, tree_root_with};

#[cfg(test)]
mod lane_tests;
#[cfg(test)]
mod tests;
