//! What a check finds.

ghost use Rattle.std.specs.Prelude.{◌≡◌};
ghost use Rattle.bk_cert.specs.Node.{with_id};
ghost use Rattle.bk_cert.specs.Identity.{id_of};

use crate::rule::Rule;
use bk_cert::Header;
use bk_digest::Digest32;
use std::marker::Model;

/// A certificate that broke no rule, with its id. Contracts see it as its header under its id.
#[derive(Debug, Drop)]
pub struct Checked {
    id: Digest32,
    header: Header,
}

impl Model for Checked {
    ghost use Rattle.std.specs.Prelude.{◌≡◌};
    ghost use Rattle.bk_cert.specs.Node.{Node, with_id};
    ghost use Rattle.bk_cert.specs.Identity.{id_of};

    ghost Value = { Node };

    ghost view = { λ c. with_id c.header };

    ghost invariant = { λ c. c.id ≡ id_of c.header };
}

impl Checked {
    // The header under its id.
    pub(crate) fn new(id: Digest32, header: Header) -> Checked
        requires { id ≡ id_of header }
        ensures { result ≡ with_id header }
    {
        Checked { id, header }
    }

    /// Its id: SHA-256 of the byte 0x10 and its header.
    pub fn id(&self) -> Digest32
        ensures { result ≡ self.now.id }
    {
        self.id
    }

    /// Its header.
    pub fn header(&self) -> &Header
        ensures { result.now ≡ self.now.header }
    {
        &self.header
    }

    /// The header, taken out of it.
    pub fn into_header(self) -> Header
        ensures { result ≡ self.header }
    {
        self.header
    }
}

/// What a check finds of the bytes of a certificate.
#[derive(Debug, Drop)]
pub enum Verdict {
    /// They break no rule.
    Good(Checked),
    /// They break this rule, and none before it.
    Broken(Rule),
}
