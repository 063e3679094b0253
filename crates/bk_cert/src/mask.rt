//! The mask of a seal: which members signed.

ghost use Rattle.std.specs.Prelude.{◌≡◌, ◌≤◌, ◌<◌, ◌==◌, ◌||◌, ◌↔◌, ℕ, length, All, ◌^◌, count_ones, Contains, IsTrue};
ghost use Rattle.bk_cert.specs.Mask.{is_signer, signer_count};

use std::marker::Model;

/// The signers of a seal, 16 bytes: member i is the bit of value 2^(i mod 8) in byte i / 8.
#[derive(Clone, Copy, Debug, PartialEq, Eq)]
pub struct Mask([u8; 16]);

impl Model for Mask {
    ghost use Rattle.std.specs.Prelude.{ℕ, List};

    ghost Value = { List ℕ };

    ghost view = { λ m. m.0 };

    ghost inverse = { λ bytes. record { 0 = bytes } };
}

impl Mask {
    /// The mask with these bytes.
    pub const fn new(bytes: [u8; 16]) -> Mask
        ensures { result ≡ bytes }
    {
        Mask(bytes)
    }

    /// The 16 bytes.
    pub const fn as_bytes(&self) -> &[u8; 16]
        ensures value { result.now ≡ self.now }
        ensures sized { length self.now ≡ 16 }
    {
        &self.0
    }

    /// Whether the member signed. Members 128 and above never did.
    pub fn has(&self, member: u8) -> bool
        ensures { result ≡ is_signer self.now member }
    {
        if member < 128 {
            self.0[(member / 8) as usize] >> (member % 8) & 1 == 1
        } else {
            false
        }
    }

    /// How many members signed, at most 128.
    pub fn len(&self) -> usize
        ensures signers { result ≡ signer_count self.now }
        ensures few { result ≤ 128 }
    {
        let mut signers = 0;
        for byte in &self.0 {
            signers += ones_of(*byte);
        }
        signers
    }

    /// Whether nobody signed.
    pub fn is_empty(&self) -> bool
        ensures { result ≡ (signer_count self.now == 0) }
    {
        self.len() == 0
    }

    /// The mask that marks these members, in whichever order they are named and however often.
    pub fn of(members: &[u8]) -> Mask
        requires { All (λ member. member < 128) members.now }
        ensures marks { (member : ℕ) → IsTrue (is_signer result member)
            ↔ Contains members.now member }
        ensures sized { length result ≡ 16 }
    {
        let mut mask = Mask([0; 16]);
        for member in members {
            mask.insert(*member);
        }
        mask
    }

    /// Marks the member as a signer.
    pub fn insert(&mut self, member: u8)
        requires { member < 128 }
        ensures marks { (other : ℕ) → is_signer self.new other
            ≡ (is_signer self.old other || member == other) }
        ensures sized { length self.new ≡ 16 }
    {
        self.0[(member / 8) as usize] |= 1 << (member % 8);
    }
}

// How many bits of a byte are set.
fn ones_of(byte: u8) -> usize
    ensures ones { result ≡ count_ones byte }
    ensures fits { byte < 2 ^ 8 }
{
    byte.count_ones() as usize
}
