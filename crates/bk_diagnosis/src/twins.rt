//! The places with several ids.

ghost use Rattle.std.specs.Prelude.{◌≡◌, ◌++◌, ◌∷◌, [], List, Some, None, map, IfOk, OnOk};
ghost use Rattle.bk_diagnosis.specs.declared.twins.Named.{Named};
ghost use Rattle.bk_diagnosis.specs.private.Twins.{ListsNamed, lines_after, named_of};
ghost use Rattle.bk_diagnosis.specs.Evidence.{twins_line as line_of};

use crate::line::Line;
use bk_cert::{CertRef, SharedCert};
use bk_digest::Digest32;
use std::alloc::{AllocError, Global};

/// A certificate by its place and its id, in this order.
#[derive(Clone, Copy, PartialEq, Eq, PartialOrd, Ord)]
pub(crate) struct Named {
    pub place: CertRef,
    pub id: Digest32,
}

/// Each place with each of its ids, in order.
///
/// It takes O(n log n), and memory for a row of the certificates.
pub(crate) fn named_in_order(alloc: Global, certs: &[SharedCert]) -> Result<Vec<Named>, AllocError>
    ensures { IfOk result (λ list. ListsNamed list.items (map named_of certs.now)) }
{
    let mut list = all_named(alloc, certs)?;
    put_in_order(&mut list);
    Ok(list)
}

/// Adds a line for each id of a place after its least one.
pub(crate) fn add_twins(lines: &mut Vec<Line>, list: &[Named]) -> Result<(), AllocError>
    ensures { OnOk result (lines.new.items ≡ lines.old.items ++ lines_after None list.now) }
{
    let mut first = None;
    for named in list {
        first = Some(add_next(lines, first, *named)?);
    }
    Ok(())
}

// Adds the line of the next one, where its place has an id before it. Returns the first one of its place.
fn add_next(lines: &mut Vec<Line>, first: Option<Named>, next: Named) -> Result<Named, AllocError>
    ensures { IfOk result (λ least. (more : List Named)
        → lines.old.items ++ lines_after first (next ∷ more)
        ≡ lines.new.items ++ lines_after (Some least) more) }
{
    match first {
        Some(least) if least.place == next.place => {
            lines.push(twins_line(least, next.id))?;
            Ok(least)
        }
        _ => Ok(next),
    }
}

// The line of two ids of a place.
fn twins_line(least: Named, second: Digest32) -> Line
    ensures { result ≡ line_of least.place least.id second }
{
    let CertRef { round, author } = least.place;
    Line::Equivocation {
        round,
        author,
        first: least.id,
        second,
    }
}

// The place and the id of each certificate.
fn all_named(alloc: Global, certs: &[SharedCert]) -> Result<Vec<Named>, AllocError>
    ensures { IfOk result (λ list. list.items ≡ map named_of certs.now) }
{
    let mut list = Vec::with_capacity(alloc, certs.len())?;
    for cert in certs {
        list.push(name_of(cert))?;
    }
    Ok(list)
}

// The place and the id of a certificate.
fn name_of(cert: &SharedCert) -> Named
    ensures { result ≡ named_of cert.now }
{
    let header = cert.header();
    let place = CertRef {
        round: header.round(),
        author: header.author(),
    };
    Named {
        place,
        id: *cert.id(),
    }
}

// Brings them into their order, each once.
fn put_in_order(list: &mut Vec<Named>)
    ensures { ListsNamed list.new.items list.old.items }
{
    list.sort_unstable();
    list.dedup();
}
