//! What all crates speak of: fields of bytes, opening accounts, kinds of frames, versions of a feed, limits, how many
//! threads execute, and the payload of a committee, with the definition of a feed. Nothing here reads from a device or
//! knows a rule of money.
#![tactic(auto)]

mod committee;
mod fields;
mod genesis;
mod kind;
mod laws;
mod limits;
mod refused;
mod version;
mod workers;

pub use committee::is_committee_payload;
pub use fields::Fields;
pub use genesis::{Row, read_genesis};
pub use kind::Kind;
pub use laws::genesis_grammar;
pub use limits::{MOST_ACCOUNTS, MOST_FEED, MOST_MEMBERS, MOST_PAYLOAD};
pub use refused::Refused;
pub use version::{MAGIC, Version, version_of};
pub use workers::Workers;
