//! The ids of each place: the least two, which show whether the place has twins.

ghost use Rattle.std.specs.Prelude.{◌≡◌, ◌<◌, ◌++◌, ◌∷◌, [], Some, length, IfOk, OnOk, OnErr};
ghost use Rattle.bk_cert.specs.Place.{place_of};
ghost use Rattle.bk_evidence.specs.Collisions.{id_cmp};
ghost use Rattle.bk_evidence.specs.Twins.{IsIdAt};
ghost use Rattle.bk_evidence.specs.private.Least.{IsLeastBy};
ghost use Rattle.bk_evidence.specs.private.Places.{ArePlaces, AreSamePlaces, HasSecond, IsEmptyPlaces, evidence_in, first_at, id_at, ids_at};

use crate::evidence::Evidence;
use crate::least::{least_id, least_place};
use bk_cert::{CertRef, SharedCert};
use bk_digest::Digest32;
use bk_index::PlaceIndex;
use std::alloc::{AllocError, Global};
use std::cmp::Ordering;
use std::collections::BTreeMap;

/// The least id of a place, and the least of its other ids, where there are others.
#[derive(Clone, Copy)]
pub(crate) struct LeastIds {
    pub least: Digest32,
    pub second: Option<Digest32>,
}

/// The least ids of each place, and the least place that has twins.
#[derive(Drop)]
pub(crate) struct Places {
    // The index of a certificate with the least id of the place.
    pub firsts: PlaceIndex,
    // The second id. Only a place with twins is in it, so it takes no memory where there are none.
    pub seconds: BTreeMap<CertRef, Digest32>,
    pub twins: Option<CertRef>,
}

impl Places {
    /// No place, of this many members.
    pub fn new(alloc: Global, members: u8) -> Places
        ensures { IsEmptyPlaces result }
    {
        Places {
            firsts: PlaceIndex::new(alloc, members),
            seconds: BTreeMap::new(alloc),
            twins: None,
        }
    }

    /// The evidence at the least place with twins.
    pub fn evidence(&self, certs: &[SharedCert]) -> Option<Evidence>
        requires { ArePlaces certs.now self.now }
        ensures { result ≡ evidence_in certs.now self.now self.now.twins }
    {
        let place = self.twins?;
        let ids = self.ids_at(certs, place)?;
        let second = ids.second?;
        Some(Evidence {
            round: place.round,
            author: place.author,
            first: ids.least,
            second,
        })
    }

    // The least ids of a place, where it has any.
    fn ids_at(&self, certs: &[SharedCert], place: CertRef) -> Option<LeastIds>
        requires { ArePlaces certs.now self.now }
        ensures { result ≡ ids_at certs.now self.now place }
    {
        let index = self.firsts.get(place)?;
        Some(LeastIds {
            least: id_of(certs, index),
            second: self.seconds.get(&place).copied(),
        })
    }
}

// The id of the certificate at an index.
fn id_of(certs: &[SharedCert], index: usize) -> Digest32
    requires { index < length certs.now }
    ensures { result ≡ id_at certs.now index }
{
    *certs[index].id()
}

// The place of a certificate.
fn place_at(cert: &SharedCert) -> CertRef
    ensures { result ≡ place_of cert.now }
{
    let header = cert.header();
    CertRef {
        round: header.round(),
        author: header.author(),
    }
}

/// Notes a certificate that is stored after these, and answers the least id that its place had
/// before. Where memory runs out nothing changes.
pub(crate) fn note(
    places: &mut Places,
    certs: &[SharedCert],
    cert: &SharedCert,
) -> Result<Option<Digest32>, AllocError>
    requires { ArePlaces certs.now places.old }
    ensures earlier { IfOk result (IsLeastBy id_cmp (IsIdAt certs.now (place_of cert.now))) }
    ensures ok { OnOk result (ArePlaces (certs.now ++ cert.now ∷ []) places.new) }
    ensures err { OnErr result (ArePlaces certs.now places.new) }
{
    let place = place_at(cert);
    match places.firsts.first_of(place, certs.len())? {
        None => Ok(None),
        Some(first) => {
            let least = id_of(certs, first);
            note_other(places, certs, cert, first)?;
            Ok(Some(least))
        }
    }
}

// Notes one more certificate of a place whose least id is at this index.
fn note_other(
    places: &mut Places,
    certs: &[SharedCert],
    cert: &SharedCert,
    first: usize,
) -> Result<(), AllocError>
    requires places { ArePlaces certs.now places.old }
    requires first { first_at places.old (place_of cert.now) ≡ Some first }
    requires low { length certs.now < 4294967295 }
    ensures ok { OnOk result (ArePlaces (certs.now ++ cert.now ∷ []) places.new) }
    ensures err { OnErr result (ArePlaces certs.now places.new) }
{
    let place = place_at(cert);
    let least = id_of(certs, first);
    let id = *cert.id();
    match id.cmp(&least) {
        Ordering::Less => {
            add_second(places, place, least)?;
            places.firsts.set(place, certs.len());
        }
        Ordering::Equal => {}
        Ordering::Greater => {
            let second = least_id(places.seconds.get(&place).copied(), id);
            add_second(places, place, second)?;
        }
    }
    Ok(())
}

// Gives a place this second id. It has twins then.
fn add_second(places: &mut Places, place: CertRef, second: Digest32) -> Result<(), AllocError>
    ensures ok { OnOk result (HasSecond places.old places.new place second) }
    ensures err { OnErr result (AreSamePlaces places.old places.new) }
{
    places.seconds.insert(place, second)?;
    places.twins = Some(least_place(places.twins, place));
    Ok(())
}
