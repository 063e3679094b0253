//! The certificates that are held, by id.

ghost use Rattle.std.specs.Prelude.{◌≡◌, ◌<◌, ◌++◌, ◌+◌, ◌↔◌, [], length, take, Contains, IfOk, OnOk, OnErr, None, Some, cond, IsTrue, MatchOption, IfSome, IfNone, option_map, slice_index_or, ℕ, List};
ghost use Rattle.bk_evidence.specs.Collisions.{IsAtMost, id_cmp};
ghost use Rattle.bk_cert.specs.Node.{Node};
ghost use Rattle.bk_cert.specs.Place.{place_of};
ghost use Rattle.bk_evidence.specs.Held.{IsCollision, IsNewId, IsOffer, NoCollision, cert_with, held_after};
ghost use Rattle.bk_evidence.specs.Twins.{IsEvidence, IsIdAt, NoTwins};
ghost use Rattle.bk_evidence.specs.Laws.{HaveSame};
ghost use Rattle.bk_evidence.specs.private.Answers.{offer_of};
ghost use Rattle.bk_evidence.specs.private.Least.{IsLeastBy};
ghost use Rattle.bk_evidence.specs.private.Places.{ArePlaces};

use crate::evidence::{Evidence, Together};
use crate::least::least_id;
use crate::offer::Offer;
use crate::places::{Places, note};
use bk_cert::{CertRef, SharedCert};
use bk_digest::Digest32;
use bk_index::{HashKey, KeyedList};
use std::alloc::{AllocError, Global};
use std::marker::Model;

/// The certificates that were offered, each distinct pair of an id and a header once, those of
/// collisions and twins too. Contracts see them in the order in which they were stored.
///
/// A certificate takes 8 bytes, besides the header and its id, which are shared, some 50 of the table
/// by id, and 4 in the row of its round. The lists have room for at most about twice the certificates.
/// A place takes 40 bytes more once it has twins.
#[derive(Drop)]
pub struct Held {
    alloc: Global,
    members: u8,
    key: HashKey,
    certs: KeyedList<SharedCert>,
    collision: Option<Digest32>,
    places: Places,
}

impl Model for Held {
    ghost use Rattle.std.specs.Prelude.{List};
    ghost use Rattle.bk_cert.specs.Node.{Node};
    ghost use Rattle.bk_evidence.specs.Collisions.{CollidesBy, id_cmp};
    ghost use Rattle.bk_evidence.specs.private.Least.{IsLeastBy};
    ghost use Rattle.bk_evidence.specs.private.Places.{ArePlaces};

    ghost Value = { List Node };

    ghost view = { λ h. h.certs };

    ghost invariant = { λ h. IsLeastBy id_cmp (CollidesBy (λ (c : Node). c.id) h.certs) h.collision
        × ArePlaces h.certs h.places };
}

impl Held {
    /// No certificate, of a committee of this many members. It takes no memory. A certificate of
    /// another author is held too, and found more slowly by its place.
    pub fn new(alloc: Global, members: u8, key: HashKey) -> Held
        ensures { result ≡ [] }
    {
        Held {
            alloc,
            members,
            key,
            certs: KeyedList::new(alloc, key),
            collision: None,
            places: Places::new(alloc, members),
        }
    }

    /// Stores a header under an id, unless it is stored there. Constant time, while no two headers have
    /// one id.
    ///
    /// An `Err` comes only where memory runs out, and leaves what is held as it was.
    pub fn offer(&mut self, cert: SharedCert) -> Result<Offer, AllocError>
        ensures answer { IfOk result (IsOffer self.old cert) }
        ensures stored { IfOk result (λ o. self.new ≡ held_after self.old cert o) }
        ensures unchanged { OnErr result (self.new ≡ self.old) }
    {
        let id = *cert.id();
        let at = self.certs.len();
        let Some((first, cert)) = self.certs.first_of(cert)? else {
            let earlier = note_last(&mut self.certs, &mut self.places, at)?;
            return Ok(offer_after(earlier));
        };
        if is_held(self.certs.as_slice(), first, &cert) {
            return Ok(Offer::Repeat);
        }
        self.certs.push(cert)?;
        note_last(&mut self.certs, &mut self.places, at)?;
        self.collision = Some(least_id(self.collision, id));
        Ok(Offer::Collision)
    }

    /// The certificates, in the order in which they were stored.
    pub fn certs(&self) -> &[SharedCert]
        ensures { result.now ≡ self.now }
    {
        self.certs.as_slice()
    }

    /// The certificate with this id that was stored first, found as by `offer`.
    pub fn get(&self, id: &Digest32) -> Option<&SharedCert>
        ensures first { option_map (λ c. c.now) result ≡ cert_with self.now id.now }
        ensures found { IfSome result (λ c. Contains self.now c.now × (c.now.id ≡ id.now)) }
        ensures none { IfNone result (IsNewId self.now id.now) }
    {
        let index = self.certs.get(id)?;
        Some(cert_at(self.certs.as_slice(), index))
    }

    /// A certificate with the least id of a place, found as by `offer`.
    pub fn at(&self, place: CertRef) -> Option<&SharedCert>
        ensures found { IfSome result (λ c. Contains self.now c.now
            × IsIdAt self.now place c.now.id) }
        ensures least { IfSome result (λ c. (id : List ℕ) → IsIdAt self.now place id
            → IsAtMost c.now.id id) }
        ensures none { IfNone result ((id : List ℕ) → IsIdAt self.now place id → ⊥) }
    {
        let index = self.places.firsts.get(place)?;
        Some(cert_at(self.certs.as_slice(), index))
    }

    /// The least round and author that has two ids, with its two least ids.
    pub fn evidence(&self) -> Option<Evidence>
        ensures { MatchOption result (NoTwins self.now) (IsEvidence self.now) }
    {
        self.places.evidence(self.certs.as_slice())
    }

    /// The least id under which two headers are held.
    pub fn collision(&self) -> Option<Digest32>
        ensures { MatchOption result (NoCollision self.now) (IsCollision self.now) }
    {
        self.collision
    }

    /// The evidence over what both hold together.
    ///
    /// It goes over both, and takes memory for a table of both, but for no header.
    pub fn evidence_with(&self, other: &Held) -> Result<Option<Evidence>, AllocError>
        ensures { IfOk result (λ found. MatchOption found
            (NoTwins (self.now ++ other.now)) (IsEvidence (self.now ++ other.now))) }
    {
        let all = self.joined(other)?;
        Ok(all.evidence())
    }

    /// The collision over what both hold together, at the cost of `evidence_with`.
    pub fn collision_with(&self, other: &Held) -> Result<Option<Digest32>, AllocError>
        ensures { IfOk result (λ found. MatchOption found
            (NoCollision (self.now ++ other.now)) (IsCollision (self.now ++ other.now))) }
    {
        let all = self.joined(other)?;
        Ok(all.collision())
    }

    /// The collision and the evidence over what both hold together. One table of both is made for
    /// them, where `collision_with` and `evidence_with` make one each.
    pub fn together_with(&self, other: &Held) -> Result<Together, AllocError>
        ensures collision { IfOk result (λ t. MatchOption t.collision
            (NoCollision (self.now ++ other.now)) (IsCollision (self.now ++ other.now))) }
        ensures evidence { IfOk result (λ t. MatchOption t.evidence
            (NoTwins (self.now ++ other.now)) (IsEvidence (self.now ++ other.now))) }
    {
        let all = self.joined(other)?;
        let collision = all.collision();
        let evidence = all.evidence();
        Ok(Together {
            collision,
            evidence,
        })
    }

    // What both hold.
    fn joined(&self, other: &Held) -> Result<Held, AllocError>
        ensures { IfOk result (λ all. HaveSame all (self.now ++ other.now)) }
    {
        let mut all = Held::new(self.alloc, self.members, self.key);
        offer_all(&mut all, self.certs.as_slice())?;
        offer_all(&mut all, other.certs.as_slice())?;
        Ok(all)
    }
}

// The certificate at an index.
fn cert_at(certs: &[SharedCert], index: usize) -> &SharedCert
    requires { index < length certs.now }
    ensures { (d : Node) → result.now ≡ slice_index_or certs.now index d }
{
    &certs[index]
}

// Offers each of the certificates.
fn offer_all(all: &mut Held, certs: &[SharedCert]) -> Result<(), AllocError>
    ensures { OnOk result (HaveSame all.new (all.old ++ certs.now)) }
{
    for cert in certs {
        let shared = cert.share(all.alloc)?;
        let _answer = all.offer(shared)?;
    }
    Ok(())
}

// What an offer of a new id answers.
fn offer_after(earlier: Option<Digest32>) -> Offer
    ensures { result ≡ offer_of earlier }
{
    match earlier {
        None => Offer::New,
        Some(id) => Offer::Twin(id),
    }
}

// Whether the certificate is held. A repeat of the first one under its id is found at once.
fn is_held(certs: &[SharedCert], first: usize, cert: &SharedCert) -> bool
    ensures { IsTrue result ↔ Contains certs.now cert.now }
{
    is_first(certs, first, cert) || is_among(certs, cert)
}

// Whether the certificate is the one at this index.
fn is_first(certs: &[SharedCert], first: usize, cert: &SharedCert) -> bool
    ensures { IsTrue result → Contains certs.now cert.now }
{
    match certs.get(first) {
        Some(other) => is_same(other, cert),
        None => false,
    }
}

// Whether the certificate is one of these.
fn is_among(certs: &[SharedCert], cert: &SharedCert) -> bool
    ensures { IsTrue result ↔ Contains certs.now cert.now }
{
    for other in certs {
        if is_same(other, cert) {
            return true;
        }
    }
    false
}

// Whether two certificates have the same id and the same header.
fn is_same(one: &SharedCert, other: &SharedCert) -> bool
    ensures { IsTrue result ↔ (one.now ≡ other.now) }
{
    *one.id() == *other.id() && *one.header() == *other.header()
}

// Notes the last certificate, whose index this is, under its place, and answers the least id that the
// place had before. Where memory runs out it is taken out again, and nothing has changed.
fn note_last(
    certs: &mut KeyedList<SharedCert>,
    places: &mut Places,
    at: usize,
) -> Result<Option<Digest32>, AllocError>
    requires last { length certs.old ≡ at + 1 }
    requires places { ArePlaces (take at certs.old) places.old }
    ensures earlier { (d : Node) → IfOk result
        (IsLeastBy id_cmp (IsIdAt (take at certs.old) (place_of (slice_index_or certs.old at d)))) }
    ensures ok { OnOk result (certs.new ≡ certs.old) }
    ensures noted { OnOk result (ArePlaces certs.old places.new) }
    ensures err { OnErr result (certs.new ≡ take at certs.old) }
    ensures same { OnErr result (ArePlaces (take at certs.old) places.new) }
{
    let all = certs.as_slice();
    match note(places, &all[..at], &all[at]) {
        Ok(earlier) => Ok(earlier),
        Err(error) => {
            certs.drop_last();
            Err(error)
        }
    }
}
