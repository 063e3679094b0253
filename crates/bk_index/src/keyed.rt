//! Entries with digests as keys.

ghost use Rattle.std.specs.Prelude.{◌≡◌, List, ℕ};

use bk_cert::SharedCert;
use bk_digest::Digest32;

/// An entry that is found by a digest.
pub trait Keyed: Drop {
    // The key of an entry.
    ghost key_of: { Self → List ℕ };

    /// What it is found by.
    fn key(&self) -> &Digest32
        ensures { result.now ≡ key_of self.now };
}

// A digest is found by itself.
impl Keyed for Digest32 {
    ghost key_of = { λ d. d };

    fn key(&self) -> &Digest32 {
        self
    }
}

// A certificate is found by its id, which it shares.
impl Keyed for SharedCert {
    ghost key_of = { λ c. c.id };

    fn key(&self) -> &Digest32 {
        self.id()
    }
}
