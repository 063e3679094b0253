//! A certificate that several tables hold.

ghost use Rattle.std.specs.Prelude.{◌≡◌, IfOk};
ghost use Rattle.bk_cert.specs.Node.{node_with};

use crate::header::Header;
use bk_digest::Digest32;
use std::alloc::{AllocError, Global};
use std::marker::Model;
use std::sync::Arc;

/// What the holders share: a header and the id that it is held under.
#[derive(Drop)]
struct Named {
    id: Digest32,
    header: Header,
}

/// A header under its id, which its holders share: both are kept once.
#[derive(Drop)]
pub struct SharedCert {
    named: Arc<Named, Global>,
}

impl Model for SharedCert {
    ghost use Rattle.std.specs.Arc.{arc_value};
    ghost use Rattle.bk_cert.specs.Node.{Node, node_with};

    ghost Value = { Node };

    ghost view = { λ s. node_with (arc_value s.named).id (arc_value s.named).header };
}

impl SharedCert {
    /// The header under this id. It takes memory for both once, and for a count.
    pub fn new(alloc: Global, id: Digest32, header: Header) -> Result<SharedCert, AllocError>
        ensures { IfOk result (λ s. s ≡ node_with id header) }
    {
        let named = Arc::new(alloc, Named { id, header })?;
        Ok(SharedCert { named })
    }

    /// The same certificate, shared: it takes no memory. Only where the count of holders is full, at
    /// 2^63, it copies the header; so an `Err` comes only where memory was refused.
    pub fn share(&self, alloc: Global) -> Result<SharedCert, AllocError>
        ensures { IfOk result (λ s. s ≡ self.now) }
    {
        match Arc::try_clone(&self.named) {
            Ok(named) => Ok(SharedCert { named }),
            Err(_) => SharedCert::new(alloc, self.named.id, self.named.header.try_clone(alloc)?),
        }
    }

    /// Its id.
    pub fn id(&self) -> &Digest32
        ensures { result.now ≡ self.now.id }
    {
        &self.named.id
    }

    /// Its header.
    pub fn header(&self) -> &Header
        ensures { result.now ≡ self.now.header }
    {
        &self.named.header
    }
}
