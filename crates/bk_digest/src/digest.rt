//! A SHA-256 digest as a value: its bytes, its text, and the digest of a tagged text.

ghost use Rattle.std.specs.Prelude.{◌≡◌, ℕ, List, [], ◌∷◌, length, Some, IfOk, IfSome, IsSome, IsTrue, ◌↔◌};
ghost use Rattle.std.specs.Cmp.Rules.{hashing};
ghost use Rattle.std.proofs.Common.{rules};
ghost use Rattle.std.specs.List.{AllPass};
ghost use Rattle.std.specs.String.{string_bytes};
ghost use Rattle.sha2.specs.Sha256.{sha256};
ghost use Rattle.hex.specs.Hex.{encode_lower};
ghost use Rattle.bk_digest.specs.Digest.{IsHexDigest, is_lower_hex, tagged_of};

use hex::FromHex;
use sha2::{Digest, Sha256};
use std::alloc::{AllocError, Allocator};
use std::hash::{Hash, Hasher};
use std::marker::Model;
use std::{fmt, str};

/// A SHA-256 digest (FIPS 180-4). Its order and its hash are those of its 32 bytes.
#[derive(Clone, Copy, PartialEq, Eq, PartialOrd, Ord)]
pub struct Digest32([u8; 32]);

impl Model for Digest32 {
    ghost Value = { List ℕ };

    ghost view = { λ d. d.0 };

    ghost inverse = { λ bytes. record { 0 = bytes } };
}

impl Digest32 {
    /// The digest with these bytes.
    pub const fn new(bytes: [u8; 32]) -> Digest32
        ensures { result ≡ bytes }
    {
        Digest32(bytes)
    }

    /// SHA-256 of the bytes.
    pub fn of(bytes: &[u8]) -> Digest32
        ensures { result ≡ sha256 bytes.now }
    {
        Digest32(Sha256::digest(bytes))
    }

    /// The 32 bytes.
    pub const fn as_bytes(&self) -> &[u8; 32]
        ensures value { result.now ≡ self.now }
        ensures sized { length self.now ≡ 32 }
    {
        &self.0
    }

    /// The digest as 64 lower-case hexadecimal digits. It fails only where memory does.
    pub fn to_hex<A: Allocator>(&self, alloc: A) -> Result<String<A>, AllocError>
        ensures { IfOk result (λ text. string_bytes text ≡ encode_lower self.now) }
    {
        hex::encode(alloc, self.0)
    }

    /// Reads 64 hexadecimal digits, and nothing else: `None` for upper-case digits, for another length
    /// and for any other byte.
    #[tactic(auto, using(crate::proofs::HexDigits::decoded_text, crate::proofs::HexDigits::refused_other))]
    pub fn parse_hex(text: &[u8]) -> Option<Digest32>
        ensures found { IsSome result ↔ IsHexDigest text.now }
        ensures value { IfSome result (λ digest. encode_lower digest ≡ text.now) }
    {
        if !are_lower_hex(text) {
            return None;
        }
        match <[u8; 32] as FromHex>::from_hex(text) {
            Ok(bytes) => Some(Digest32(bytes)),
            Err(_) => None,
        }
    }
}

// All bytes in one write: a derived `hash` makes one for each byte.
impl Hash for Digest32 {
    ghost hash_input = { λ digest. digest ∷ [] };

    ghost respects_eq = { Prim.search (hashing, rules) };

    fn hash<H: Hasher>(&self, state: &mut H) {
        state.write(&self.0);
    }
}

impl fmt::Display for Digest32 {
    ghost output = { λ digest. Some (encode_lower digest) };

    fn fmt<W: fmt::Write>(&self, f: &mut fmt::Formatter<W>) -> fmt::Result {
        let mut buffer = [0u8; 64];
        f.write_str(hex_text(&self.0, &mut buffer))
    }
}

impl fmt::Debug for Digest32 {
    fn fmt<W: fmt::Write>(&self, f: &mut fmt::Formatter<W>) -> fmt::Result {
        fmt::Display::fmt(self, f)
    }
}

// Whether each byte is a digit in lower case.
fn are_lower_hex(text: &[u8]) -> bool
    ensures { IsTrue result ↔ AllPass is_lower_hex text.now }
{
    text.iter().all(|c| matches!(*c, b'0'..=b'9' | b'a'..=b'f'))
}

// Writes the digits of `bytes` into `buffer`, as text.
fn hex_text<'b>(bytes: &[u8; 32], buffer: &'b mut [u8; 64]) -> &'b str
    ensures { result.now ≡ encode_lower bytes.now }
{
    let _ = hex::encode_to_slice(bytes, buffer);
    unsafe { str::from_utf8_unchecked(buffer) }
}

/// SHA-256 of `byte` and then `bytes`: the byte says what kind of text is hashed.
#[tactic(auto, unfolding(crate::specs::Digest::tagged_of))]
pub fn tagged(byte: u8, bytes: &[u8]) -> Digest32
    ensures { result ≡ tagged_of byte bytes.now }
{
    let mut hasher = Sha256::new();
    hasher.update([byte]);
    hasher.update(bytes);
    Digest32(hasher.finalize())
}
