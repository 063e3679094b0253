//! The batches that an order names, each with the certificate that names it first.

ghost use Rattle.std.specs.Prelude.{◌≡◌, ◌++◌, [], Contains, IfOk, OnOk};
ghost use Rattle.std.specs.List.{flat_map, fold};
ghost use Rattle.bk_rounds.specs.Admission.{IsPresent};
ghost use Rattle.bk_tables.specs.private.Naming.{named_at, named_by, with_named};
ghost use Rattle.bk_tables.specs.declared.placing.Placed.{Placed};

use crate::placing::Placed;
use bk_digest::Digest32;
use bk_index::{HashKey, Keyed, KeyedList};
use bk_rounds::Rounds;
use std::alloc::{AllocError, Global};

/// A batch by its digest, and the certificate that names it.
#[derive(Clone, Copy)]
pub(crate) struct Named {
    pub digest: Digest32,
    pub by: Placed,
}

impl Keyed for Named {
    ghost key_of = { λ n. n.digest };

    fn key(&self) -> &Digest32 {
        &self.digest
    }
}

// Takes the next one, unless its digest is there.
fn add(firsts: &mut KeyedList<Named>, named: Named) -> Result<(), AllocError>
    ensures { OnOk result (firsts.new ≡ with_named firsts.old named) }
{
    let _ = firsts.first_of(named)?;
    Ok(())
}

// Takes the batches that a certificate names.
fn add_all(
    firsts: &mut KeyedList<Named>,
    digests: &[Digest32],
    by: Placed,
) -> Result<(), AllocError>
    ensures { OnOk result (firsts.new ≡ fold with_named firsts.old (named_by by digests.now)) }
{
    for digest in digests {
        let digest = *digest;
        add(firsts, Named { digest, by })?;
    }
    Ok(())
}

/// The batches that these certificates name, each once.
pub(crate) fn firsts_of(
    alloc: Global,
    key: HashKey,
    rounds: &Rounds,
    placed: &[Placed],
) -> Result<KeyedList<Named>, AllocError>
    requires { (p : Placed) → Contains placed.now p
        → IsPresent rounds.now.sizes rounds.now.held p.cert }
    ensures { IfOk result (λ firsts. firsts
        ≡ fold with_named [] (flat_map (named_at rounds.now.held) placed.now)) }
{
    rounds.sound();
    let mut firsts = KeyedList::new(alloc, key);
    for by in placed {
        if let Some(cert) = rounds.at(by.cert) {
            add_all(&mut firsts, cert.header().batches(), *by)?;
        }
    }
    Ok(firsts)
}
