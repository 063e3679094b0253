//! Names of batches and certificates, and what they stand for.

ghost use Rattle.std.specs.Prelude.{◌≡◌, ◌++◌, ◌∷◌, [], OnOk, OnErr, map};
ghost use Rattle.std.specs.BTreeMap.{IsUnchanged};
ghost use Rattle.bk_script.specs.Known.{place_of, meant_by, is_new_name};
ghost use Rattle.bk_script.specs.Words.{each_of};
ghost use Rattle.bk_script.specs.Answers.{Answers};
ghost use Rattle.bk_script.specs.private.Places.{IsNoted};

use crate::fault::{ScriptCode, Stop};
use crate::words::{digest, is_name};
use bk_digest::Digest32;
use std::alloc::{AllocError, Global};
use std::collections::BTreeMap;
use std::marker::Model;

// A name, and the digest of the batch or the id of the certificate that it stands for.
#[derive(Drop)]
struct Named {
    name: Vec<u8>,
    digest: Digest32,
}

impl Model for Named {
    ghost use Rattle.bk_script.specs.Known.{NamedValue};

    ghost Value = { NamedValue };

    ghost view = { λ n. record { name = n.name.items; digest = n.digest } };
}

/// Names with what they stand for, in the order in which they were given. Contracts see them as a list.
///
/// To find a name costs the logarithm of how many there are, and so does one more.
#[derive(Drop)]
pub(crate) struct Names {
    named: Vec<Named>,
    // Where each name is, the first of equal ones.
    places: BTreeMap<Vec<u8>, usize>,
}

impl Model for Names {
    ghost use Rattle.std.specs.Prelude.{List};
    ghost use Rattle.bk_script.specs.Known.{NamedValue};
    ghost use Rattle.bk_script.specs.private.Places.{ArePlaces};

    ghost Value = { List NamedValue };

    ghost view = { λ n. n.named.items };

    ghost invariant = { λ n. ArePlaces n.named.items n.places };
}

// Notes that a name is at a place, unless it is at one already.
fn note(
    places: &mut BTreeMap<Vec<u8>, usize>,
    name: Vec<u8>,
    place: usize,
) -> Result<(), AllocError>
    ensures noted { OnOk result (IsNoted places.old places.new name.items place) }
    ensures err { OnErr result (IsUnchanged places.old places.new) }
{
    if places.contains_key(name.as_slice()) {
        return Ok(());
    }
    places.insert(name, place)?;
    Ok(())
}

impl Names {
    /// No names.
    pub(crate) fn new(alloc: Global) -> Names
        ensures { result ≡ [] }
    {
        Names {
            named: Vec::new(alloc),
            places: BTreeMap::new(alloc),
        }
    }

    /// Puts one more name after the others, with what it stands for.
    pub(crate) fn push(
        &mut self,
        alloc: Global,
        name: Vec<u8>,
        digest: Digest32,
    ) -> Result<(), AllocError>
        ensures { OnOk result (self.new
            ≡ self.old ++ record { name = name.items; digest = digest } ∷ []) }
    {
        self.named.reserve(1)?;
        let key = Vec::from_slice(alloc, &name)?;
        note(&mut self.places, key, self.named.len())?;
        self.named.push_reserved(Named { name, digest });
        Ok(())
    }
}

/// Where a name is.
pub(crate) fn place(names: &Names, name: &[u8]) -> Option<usize>
    ensures { result ≡ place_of names.now name.now }
{
    names.places.get(name).copied()
}

/// Whether a word is a name of a good form that stands for nothing so far.
#[tactic(auto, unfolding(crate::specs::Known::is_new_name))]
pub(crate) fn is_new_name(names: &Names, name: &[u8]) -> bool
    ensures { result ≡ is_new_name names.now name.now }
{
    is_name(name) && place(names, name).is_none()
}

/// The digest that an item of a list writes, or that the name there stands for.
#[tactic(auto, unfolding(crate::specs::Known::meant_by))]
pub(crate) fn meant_by(names: &Names, item: &[u8]) -> Result<Digest32, ScriptCode>
    ensures { result ≡ meant_by names.now item.now }
{
    if let Some(digest) = digest(item) {
        return Ok(digest);
    }
    match place(names, item) {
        Some(i) => Ok(names.named[i].digest),
        None => Err(ScriptCode::Name),
    }
}

/// What each item of a list stands for.
pub(crate) fn all_meant(
    alloc: Global,
    names: &Names,
    items: &[&[u8]],
) -> Result<Vec<Digest32>, Stop>
    ensures { Answers (λ found. found.items) result
        (each_of (meant_by names.now) (map (λ p. p.now) items.now)) }
{
    let mut found = Vec::new(alloc);
    for item in items {
        found.push(meant_by(names, item)?)?;
    }
    Ok(found)
}
