//! The batches that an order names and that are not held.

ghost use Rattle.std.specs.Prelude.{◌≡◌, ◌++◌, [], Contains, IfOk, OnOk, map, string_bytes};
ghost use Rattle.std.specs.List.{fold};
ghost use Rattle.bk_rounds.specs.Admission.{IsPresent};
ghost use Rattle.bk_diagnosis.specs.Lines.{text_of};
ghost use Rattle.bk_diagnosis.specs.Missing.{Naming, missing_in, missing_line};
ghost use Rattle.bk_diagnosis.specs.private.Lacking.{named_by, naming_of, with_lacking};

use crate::line::Line;
use bk_cert::CertRef;
use bk_digest::Digest32;
use bk_evidence::Batches;
use bk_index::{HashKey, Keyed, KeyedList};
use bk_rounds::Rounds;
use std::alloc::{AllocError, Global};
use std::fmt::Write;
use std::marker::Model;

// The digest of a batch that is not held, and the place of the certificate that names it first.
#[derive(Clone, Copy)]
struct Lack {
    digest: Digest32,
    place: CertRef,
}

impl Keyed for Lack {
    ghost key_of = { λ l. l.digest };

    fn key(&self) -> &Digest32 {
        &self.digest
    }
}

// These so far, in their order.
#[derive(Drop)]
pub(crate) struct Lacks {
    list: KeyedList<Lack>,
}

impl Model for Lacks {
    ghost use Rattle.std.specs.Prelude.{List, map};
    ghost use Rattle.bk_diagnosis.specs.Missing.{Naming};
    ghost use Rattle.bk_diagnosis.specs.private.Lacking.{naming_of};

    ghost Value = { List Naming };

    ghost view = { λ l. map naming_of l.list };
}

impl Lacks {
    // None.
    fn new(alloc: Global, key: HashKey) -> Lacks
        ensures { result ≡ [] }
    {
        Lacks {
            list: KeyedList::new(alloc, key),
        }
    }

    // Takes a digest that is named, unless it has a batch or was taken before.
    fn add(&mut self, stored: &Batches, lack: Lack) -> Result<(), AllocError>
        ensures { OnOk result (self.new ≡ with_lacking stored.now self.old (naming_of lack)) }
    {
        if stored.get(&lack.digest).is_some() {
            return Ok(());
        }
        let _ = self.list.first_of(lack)?;
        Ok(())
    }

    // Takes the digests that the certificate of a place names.
    fn add_all(
        &mut self,
        stored: &Batches,
        digests: &[Digest32],
        place: CertRef,
    ) -> Result<(), AllocError>
        ensures { OnOk result (self.new
            ≡ fold (with_lacking stored.now) self.old (named_by place digests.now)) }
    {
        for digest in digests {
            let digest = *digest;
            self.add(stored, Lack { digest, place })?;
        }
        Ok(())
    }

    /// Adds the line of each to a text, with a line feed at its end.
    pub fn push(&self, text: &mut String) -> Result<(), AllocError>
        ensures { OnOk result (string_bytes text.new
            ≡ string_bytes text.old ++ text_of (map missing_line self.now)) }
    {
        for lack in self.list.as_slice() {
            let line = line_of(*lack);
            writeln!(text, "{line}")?;
        }
        Ok(())
    }
}

// Its line.
fn line_of(lack: Lack) -> Line
    ensures { result ≡ missing_line (naming_of lack) }
{
    Line::Missing {
        digest: lack.digest,
        round: lack.place.round,
        author: lack.place.author,
    }
}

/// What the certificates of this order name and what is not stored, each digest where it is named first, in time
/// linear in the digests that they name.
pub(crate) fn lacks_of(
    alloc: Global,
    rounds: &Rounds,
    stored: &Batches,
    order: &[CertRef],
) -> Result<Lacks, AllocError>
    requires { (a : CertRef) → Contains order.now a
        → IsPresent rounds.now.sizes rounds.now.held a }
    ensures { IfOk result (λ lacks.
        lacks ≡ missing_in rounds.now.held stored.now order.now) }
{
    rounds.sound();
    let mut lacks = Lacks::new(alloc, stored.key());
    for place in order {
        if let Some(cert) = rounds.at(*place) {
            lacks.add_all(stored, cert.header().batches(), *place)?;
        }
    }
    Ok(lacks)
}
