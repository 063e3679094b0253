//! A cell of the picture.

ghost use Rattle.std.specs.Prelude.{◌≡◌, ◌-◌, ◌<◌, ◌≤◌, ◌↔◌, ◌⊎◌, ℕ, List, Some};
ghost use Rattle.bk_cert.specs.declared.place.CertRef.{CertRef};
ghost use Rattle.bk_rounds.specs.Members.{Has};
ghost use Rattle.bk_committee.specs.Sizes.{members};
ghost use Rattle.std.specs.Prelude.{Contains};
ghost use Rattle.bk_evidence.specs.Twins.{IsIdAt};
ghost use Rattle.bk_picture.specs.Picture.{HoldSame, IsCellOf, IsCircleOf, IsClassOf, IsLinkIn, IsParentIn, IsVoteOf, NamesHeld, graph_with, at_place};
ghost use Rattle.bk_picture.specs.private.Cells.{IsNamedIn, IsPlaceIn};

use crate::picture::{Cell, Circle, Class};
use bk_cert::CertRef;
use bk_digest::Digest32;
use bk_evidence::Held;
use bk_rounds::{Members, Rounds};

// What became of a held certificate of a place, where these members of its round are in the order.
fn class_of(rounds: &Rounds, marks: Members, place: CertRef) -> Class
    requires member { place.author < 128 }
    requires here { IsPlaceIn rounds.now.held place }
    ensures { (anchors order : List CertRef) → (Has marks place.author ↔ Contains order place)
        → IsClassOf (graph_with rounds.now.sizes rounds.now.held anchors order) place result }
{
    if marks.has(place.author) {
        return Class::Ordered;
    }
    match rounds.at(place) {
        Some(_) => Class::Admitted,
        None => Class::Waiting,
    }
}

// The circle of a certificate with this id, where these members of its round are in the order.
fn circle_with(rounds: &Rounds, marks: Members, place: CertRef, id: &Digest32) -> Circle
    requires member { place.author < 128 }
    requires here { IsIdAt rounds.now.held place id.now }
    ensures { (anchors order : List CertRef) → (Has marks place.author ↔ Contains order place)
        → IsCircleOf (graph_with rounds.now.sizes rounds.now.held anchors order) place
        (Some result) }
{
    let class = class_of(rounds, marks, place);
    Circle { id: *id, class }
}

/// The circle of a place, where these members of its round are in the order.
pub(crate) fn circle_of(
    rounds: &Rounds,
    held: &Held,
    marks: Members,
    place: CertRef,
) -> Option<Circle>
    requires member { place.author < 128 }
    requires same { HoldSame held.now rounds.now.held }
    ensures { (anchors order : List CertRef) → (Has marks place.author ↔ Contains order place)
        → IsCircleOf (graph_with rounds.now.sizes rounds.now.held anchors order) place result }
{
    let Some(cert) = held.at(place) else {
        return None;
    };
    Some(circle_with(rounds, marks, place, cert.id()))
}

// The parents of the admitted certificate of a place, where the round before is drawn; nobody where none is admitted.
fn linked_of(rounds: &Rounds, from: u32, place: CertRef) -> Members
    ensures { (anchors order : List CertRef) (y : ℕ) → Has result y ↔ IsLinkIn
        (graph_with rounds.now.sizes rounds.now.held anchors order) from place y }
{
    if place.round <= from {
        return Members::none();
    }
    rounds.parents_of(place)
}

// The set with the author of the certificate with this id, where one of this round is held.
fn with_named(rounds: &Rounds, held: &Held, round: u32, set: Members, id: &Digest32) -> Members
    requires same { HoldSame held.now rounds.now.held }
    ensures { (y : ℕ) → Has result y
        ↔ (Has set y ⊎ IsIdAt rounds.now.held (at_place round y) id.now) }
{
    // What is held is of members, and their number also says that it is at most 128.
    rounds.sound();
    let _ = rounds.members();
    let Some(cert) = held.get(id) else {
        return set;
    };
    let header = cert.header();
    if header.round() != round {
        return set;
    }
    set.with(header.author())
}

// The authors of the certificates of this round that are held under one of these ids.
fn named_of(rounds: &Rounds, held: &Held, round: u32, ids: &[Digest32]) -> Members
    requires same { HoldSame held.now rounds.now.held }
    ensures { (y : ℕ) → Has result y ↔ IsNamedIn rounds.now.held round ids.now y }
{
    let mut named = Members::none();
    for id in ids {
        named = with_named(rounds, held, round, named, id);
    }
    named
}

// The parents of the round before that the certificate of a place names, as far as they are held.
fn named_at(rounds: &Rounds, held: &Held, place: CertRef) -> Members
    requires first { 1 ≤ place.round }
    requires same { HoldSame held.now rounds.now.held }
    ensures { (y : ℕ) → Has result y
        ↔ NamesHeld rounds.now.held place (at_place (place.round - 1) y) }
{
    // No two certificates that are held share an id or a place.
    rounds.sound();
    match held.at(place) {
        Some(cert) => named_of(rounds, held, place.round - 1, cert.header().parents()),
        None => Members::none(),
    }
}

// The parents of the certificate of a place, where the round before is drawn and these are those of an admitted one.
fn parents_of(rounds: &Rounds, held: &Held, from: u32, place: CertRef, linked: Members) -> Members
    requires first { 1 ≤ from }
    requires same { HoldSame held.now rounds.now.held }
    ensures { (anchors order : List CertRef) → ((y : ℕ) → Has linked y ↔ IsLinkIn
        (graph_with rounds.now.sizes rounds.now.held anchors order) from place y) → (y : ℕ)
        → Has result y ↔ IsParentIn
        (graph_with rounds.now.sizes rounds.now.held anchors order) from place y }
{
    // No two certificates that are held share an id or a place.
    rounds.sound();
    if place.round <= from || rounds.at(place).is_some() {
        return linked;
    }
    named_at(rounds, held, place)
}

// The one of these parents of an admitted certificate that it votes for.
fn vote_of(rounds: &Rounds, from: u32, place: CertRef, linked: Members) -> Option<u8>
    requires { 1 ≤ from }
    ensures { (anchors order : List CertRef) → ((y : ℕ) → Has linked y ↔ IsLinkIn
        (graph_with rounds.now.sizes rounds.now.held anchors order) from place y) → IsVoteOf
        (graph_with rounds.now.sizes rounds.now.held anchors order) from place result }
{
    // The number of members also says that it is 1 to 128.
    let _ = rounds.members();
    if place.round <= from || place.round % 2 == 1 {
        return None;
    }
    let leader = rounds.leader(place.round - 1);
    if linked.has(leader) {
        Some(leader)
    } else {
        None
    }
}

/// The cell of a place, which has this circle.
pub(crate) fn cell_of(
    rounds: &Rounds,
    held: &Held,
    from: u32,
    place: CertRef,
    circle: Option<Circle>,
) -> Cell
    requires first { 1 ≤ from }
    requires same { HoldSame held.now rounds.now.held }
    ensures { (anchors order : List CertRef)
        → IsCircleOf (graph_with rounds.now.sizes rounds.now.held anchors order) place circle
        → IsCellOf (graph_with rounds.now.sizes rounds.now.held anchors order) from place result }
{
    let linked = linked_of(rounds, from, place);
    Cell {
        member: place.author,
        circle,
        parents: parents_of(rounds, held, from, place, linked),
        vote: vote_of(rounds, from, place, linked),
    }
}
