//! Certificates: a header over batches and parents, its id, and the seal of members under it.
//!
//! `Cert::decode` answers exactly what the bytes encode, and nothing where they encode no certificate;
//! `Cert::encode` writes the one encoding. `Cert::seal` makes the certificate that given members sign. `want_tags`
//! gathers the tags that a seal needs, so that those of many seals are made side by side.
//! That a tag is its member's is judged elsewhere: here a certificate is only well formed.
//! A `CertView` is a certificate that is read in place from its bytes.
//!
//! `CertRef` is the place of a certificate, its round and its author; a `SharedCert` is a header
//! under its id that several tables hold, kept once.
#![tactic(auto)]

mod cert;
mod header;
mod laws;
mod mask;
mod place;
mod reading;
mod shared;
mod tagging;
mod view;
mod writing;

pub use cert::Cert;
pub use header::{Header, id_of_bytes, ids_of_bytes};
pub use laws::{certificate_grammar, equal_headers};
pub use mask::Mask;
pub use place::CertRef;
pub use shared::SharedCert;
pub use tagging::want_tags;
pub use view::CertView;

#[cfg(test)]
mod tests;
