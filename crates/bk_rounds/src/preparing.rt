//! What a further certificate takes of memory, before anything else.

ghost use Rattle.std.specs.Prelude.{◌≡◌, ◌<◌, OnOk, IfOk, vec_len, vec_capacity};
ghost use Rattle.bk_rounds.specs.private.Names.{AreNames, Grows};
ghost use Rattle.bk_rounds.specs.private.Prepared.{IsPrepared};

use crate::buffers::Buffers;
use crate::names::{Names, numbers_of, own_number};
use crate::rows::Rows;
use crate::waking::register;
use bk_cert::SharedCert;
use std::alloc::{AllocError, Global};

/// The numbers of a certificate and of its parents.
#[derive(Drop)]
pub(crate) struct Prepared {
    pub number: usize,
    pub parents: Vec<usize>,
}

/// Numbers the certificate's ids, lets it wait under its parents that are not admitted, and makes
/// room for it and for all that may become admitted.
pub(crate) fn prepare(
    alloc: Global,
    names: &mut Names,
    certs: &mut Vec<SharedCert>,
    buffers: &mut Buffers,
    rows: &mut Rows,
    cert: &SharedCert,
) -> Result<Prepared, AllocError>
    requires { AreNames names.old }
    ensures grows { Grows names.old names.new }
    ensures certs { certs.new.items ≡ certs.old.items }
    ensures room { OnOk result (vec_len certs.new < vec_capacity certs.new) }
    ensures prepared { IfOk result (IsPrepared names.new buffers.new cert.now) }
{
    let parents = numbers_of(alloc, names, rows.before(cert), cert.header().parents())?;
    let number = own_number(alloc, names, cert.id())?;
    buffers.clear_for(names.unmarked)?;
    certs.reserve(1)?;
    rows.open(cert, certs.len())?;
    register(alloc, &names.marks, &mut names.pending, number, &parents)?;
    Ok(Prepared { number, parents })
}
