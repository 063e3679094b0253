//! Room for what a certificate makes admitted.

ghost use Rattle.std.specs.Prelude.{◌↔◌, Contains, OnOk};
ghost use Rattle.bk_cert.specs.Place.{IsListed};
ghost use Rattle.bk_cert.specs.declared.place.CertRef.{CertRef};
ghost use Rattle.bk_rounds.specs.private.Prepared.{AreClearFor};

use crate::admitting::list;
use bk_cert::CertRef;
use std::alloc::{AllocError, Global};
use std::mem;

/// The numbers and the places of what becomes admitted. The table keeps their memory from one
/// certificate to the next: there has to be room for all that wait, and making that anew each time
/// would cost more, the more wait.
#[derive(Drop)]
pub(crate) struct Buffers {
    pub out: Vec<usize>,
    pub places: Vec<CertRef>,
}

impl Buffers {
    /// No room yet.
    pub fn new(alloc: Global) -> Buffers {
        Buffers {
            out: Vec::new(alloc),
            places: Vec::new(alloc),
        }
    }

    /// Empties them, and makes room for this many where there is less.
    pub fn clear_for(&mut self, most: usize) -> Result<(), AllocError>
        ensures { OnOk result (AreClearFor self.new most) }
    {
        self.out.clear();
        self.places.clear();
        self.out.reserve(most)?;
        self.places.reserve(most)?;
        Ok(())
    }
}

/// Hands these places over in their order, each once, in a list of their own. Where there is no
/// memory for that, the buffer itself is handed over, and the next certificate makes a new one.
pub(crate) fn hand_over(alloc: Global, places: &mut Vec<CertRef>) -> Vec<CertRef>
    ensures listed { IsListed result.items }
    ensures same { (a : CertRef) → Contains result.items a ↔ Contains places.old.items a }
{
    list(places);
    let mut copy = Vec::new(alloc);
    match copy.extend_from_slice(places) {
        Ok(()) => copy,
        Err(_) => mem::replace(places, Vec::new(alloc)),
    }
}
