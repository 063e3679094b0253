//! The header of a certificate: who made it, in which round, over which batches and parents.

ghost use Rattle.std.specs.Prelude.{◌≡◌, ◌≤◌, ◌∷◌, ◌++◌, ◌↔◌, List, ℕ, length, map, IfSome, IsSome, IfOk};
ghost use Rattle.std.specs.List.{concat};
ghost use Rattle.std.specs.Int.{w16, w32, to_be_bytes};
ghost use Rattle.sha2.specs.Hashers.{Holds256};
ghost use Rattle.bk_digest.specs.Digest.{tagged_of};
ghost use Rattle.bk_cert.specs.Values.{header_with};
ghost use Rattle.bk_cert.specs.Spelling.{AreDigests, IsHeader, header_text};
ghost use Rattle.bk_cert.specs.Identity.{id_of};
ghost use Rattle.bk_cert.specs.Equality.{header_eq};

use crate::reading::HeaderParts;
use crate::writing::put_header;
use bk_digest::{Digest32, tagged};
use bk_lanes::tagged_each;
use sha2::{Digest, Sha256};
use std::alloc::{AllocError, Global};
use std::marker::Model;

/// The most batches that a header may name.
pub(crate) const MOST_BATCHES: usize = 1_000;

/// The most parents that a header may name.
pub(crate) const MOST_PARENTS: usize = 128;

/// The byte that comes before a header's bytes where its id is hashed.
const ID_PREFIX: u8 = 0x10;

/// The header of a certificate. Contracts see it as its values, and `==` answers whether they are the same.
#[derive(Debug, Drop)]
pub struct Header {
    author: u8,
    round: u32,
    batches: Vec<Digest32>,
    parents: Vec<Digest32>,
}

impl Model for Header {
    ghost use Rattle.bk_cert.specs.Values.{HeaderValue, header_with};
    ghost use Rattle.bk_cert.specs.Spelling.{IsHeader};

    ghost Value = { HeaderValue };

    ghost view = { λ h. header_with h.author h.round h.batches.items h.parents.items };

    ghost invariant = { λ h. IsHeader (header_with h.author h.round h.batches.items h.parents.items) };
}

impl Header {
    /// The header of these parts, `None` where there are more than 1,000 batches or more than 128 parents.
    pub fn new(
        author: u8,
        round: u32,
        batches: Vec<Digest32>,
        parents: Vec<Digest32>,
    ) -> Option<Header>
        ensures few { IsSome result ↔ ((length batches.items ≤ 1000)
            × (length parents.items ≤ 128)) }
        ensures parts { IfSome result
            (λ h. h ≡ header_with author round batches.items parents.items) }
    {
        if batches.len() > MOST_BATCHES || parents.len() > MOST_PARENTS {
            return None;
        }
        know_sizes(&batches);
        know_sizes(&parents);
        Some(Header {
            author,
            round,
            batches,
            parents,
        })
    }

    /// The header whose fields these are.
    pub(crate) fn of_parts(alloc: Global, parts: &HeaderParts) -> Result<Header, AllocError>
        requires { IsHeader parts.now }
        ensures { IfOk result (λ h. h ≡ parts.now) }
    {
        let batches = digests_of(alloc, parts.batches)?;
        let parents = digests_of(alloc, parts.parents)?;
        Ok(Header {
            author: parts.author,
            round: parts.round,
            batches,
            parents,
        })
    }

    /// The member who made it.
    pub fn author(&self) -> u8
        ensures { result ≡ self.now.author }
    {
        self.author
    }

    /// The round that it was made in.
    pub fn round(&self) -> u32
        ensures { result ≡ self.now.round }
    {
        self.round
    }

    /// The digests of its batches, at most 1,000, in its order. One may be there twice.
    pub fn batches(&self) -> &[Digest32]
        ensures all { result.now ≡ self.now.batches }
        ensures header { IsHeader self.now }
    {
        &self.batches
    }

    /// The ids of its parents, at most 128, in its order.
    pub fn parents(&self) -> &[Digest32]
        ensures all { result.now ≡ self.now.parents }
        ensures header { IsHeader self.now }
    {
        &self.parents
    }

    /// The same header once more, O(n). It fails only where memory runs out.
    pub fn try_clone(&self, alloc: Global) -> Result<Header, AllocError>
        ensures { IfOk result (λ h. h ≡ self.now) }
    {
        let mut batches = Vec::with_capacity(alloc, self.batches.len())?;
        batches.extend_from_slice(&self.batches)?;
        let mut parents = Vec::with_capacity(alloc, self.parents.len())?;
        parents.extend_from_slice(&self.parents)?;
        Ok(Header {
            author: self.author,
            round: self.round,
            batches,
            parents,
        })
    }

    /// How many bytes it takes. In the bytes of a certificate the header ends here.
    pub fn header_len(&self) -> usize
        ensures len { result ≡ length (header_text self.now) }
        ensures short { result ≤ 36_104 }
    {
        8 + 32 * (self.batches.len() + self.parents.len())
    }

    /// Its one encoding, O(n). It reserves once.
    pub fn header_bytes(&self, alloc: Global) -> Result<Vec<u8>, AllocError>
        ensures { IfOk result (λ text. text.items ≡ header_text self.now) }
    {
        let mut text = Vec::with_capacity(alloc, self.header_len())?;
        put_header(&mut text, self)?;
        Ok(text)
    }

    /// Its id: SHA-256 of the byte 0x10 and its encoding (FIPS 180-4). O(n). It takes no memory.
    pub fn id(&self) -> Digest32
        ensures { result ≡ id_of self.now }
    {
        let mut hasher = Sha256::new();
        hasher.update([ID_PREFIX]);
        hasher.update(self.opening());
        hash_digests(&mut hasher, &self.batches);
        hasher.update([self.parents.len() as u8]);
        hash_digests(&mut hasher, &self.parents);
        Digest32::new(hasher.finalize())
    }

    /// What is before the first batch: author, round and the count of batches.
    pub(crate) fn opening(&self) -> [u8; 7]
        ensures { result ≡ self.now.author ∷ to_be_bytes w32 self.now.round ++ to_be_bytes w16
            (length self.now.batches) }
    {
        let round = self.round.to_be_bytes();
        let count = (self.batches.len() as u16).to_be_bytes();
        [
            self.author,
            round[0],
            round[1],
            round[2],
            round[3],
            count[0],
            count[1],
        ]
    }
}

impl PartialEq for Header {
    ghost use Rattle.std.specs.Cmp.{partial_equiv_from_equiv};
    ghost use Rattle.bk_cert.specs.Equality.{header_equivalence};

    ghost eq = { header_eq };

    ghost laws = { partial_equiv_from_equiv header_equivalence };

    fn eq(&self, other: &Header) -> bool {
        self.author == other.author
            && self.round == other.round
            && self.batches == other.batches
            && self.parents == other.parents
    }
}

impl Eq for Header {
    ghost use Rattle.bk_cert.specs.Equality.{header_equivalence};

    ghost laws = { header_equivalence };
}

/// The id of the header that has these bytes: SHA-256 of the byte 0x10 and of them (FIPS 180-4).
pub fn id_of_bytes(header_bytes: &[u8]) -> Digest32
    ensures { result ≡ tagged_of 0x10 header_bytes.now }
{
    tagged(ID_PREFIX, header_bytes)
}

/// The ids of the headers that have these bytes, in their order, as `id_of_bytes` gives each. They are hashed side by
/// side. It fails only where memory runs out.
#[tactic(auto, unfolding(bk_digest::specs::Digest::tagged_of))]
pub fn ids_of_bytes(alloc: Global, headers: &[&[u8]]) -> Result<Vec<[u8; 32]>, AllocError>
    ensures { IfOk result (λ ids. ids.items ≡ map (λ bytes. tagged_of 0x10 bytes.now) headers.now) }
{
    tagged_each(alloc, ID_PREFIX, headers)
}

/// The digests whose bytes these are.
pub(crate) fn digests_of(alloc: Global, pieces: &[[u8; 32]]) -> Result<Vec<Digest32>, AllocError>
    ensures { IfOk result (λ digests. digests.items ≡ pieces.now) }
{
    let mut digests = Vec::with_capacity(alloc, pieces.len())?;
    for piece in pieces {
        digests.push(Digest32::new(*piece))?;
    }
    Ok(digests)
}

// Nothing is done: each digest has 32 bytes, and the loop brings this to the proof.
fn know_sizes(digests: &[Digest32])
    ensures { AreDigests digests.now }
{
    for digest in digests {
        let _ = digest.as_bytes();
    }
}

// Adds the digests to what is hashed.
fn hash_digests(hasher: &mut Sha256, digests: &[Digest32])
    ensures { (m : List ℕ) → Holds256 hasher.old m → Holds256 hasher.new (m ++ concat digests.now) }
{
    for digest in digests {
        hasher.update(digest.as_bytes());
    }
}
