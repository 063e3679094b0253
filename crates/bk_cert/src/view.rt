//! A certificate as it is in its bytes.

ghost use Rattle.std.specs.Prelude.{◌≡◌, ◌≢◌, IfOk, IfSome, IfNone};
ghost use Rattle.bk_cert.specs.Values.{CertValue};
ghost use Rattle.bk_cert.specs.Spelling.{IsCertificate, header_text, certificate_text};
ghost use Rattle.bk_cert.specs.Reading.{certificate_of};

use crate::header::Header;
use crate::mask::Mask;
use crate::reading::{Parts, certificate};
use std::alloc::{AllocError, Global};
use std::marker::Model;

/// A certificate that is read in place from its bytes. Contracts see it as the certificate.
///
/// As in a `Cert`, the tags are as they came: that each is its member's is not known here.
#[derive(Drop)]
pub struct CertView<'a> {
    parts: Parts<'a>,
    header_bytes: &'a [u8],
}

impl<'a> Model for CertView<'a> {
    ghost use Rattle.std.specs.Prelude.{◌≡◌};
    ghost use Rattle.bk_cert.specs.Values.{CertValue};
    ghost use Rattle.bk_cert.specs.Spelling.{IsCertificate, header_text};

    ghost Value = { CertValue };

    ghost view = { λ v. v.parts };

    ghost invariant = { λ v. IsCertificate v.parts
        × (v.header_bytes.now ≡ header_text v.parts.header) };
}

impl<'a> CertView<'a> {
    /// The certificate that the bytes encode, all of the bytes; nothing where they encode none. It takes no memory.
    pub fn of(bytes: &'a [u8]) -> Option<CertView<'a>>
        ensures exact { result ≡ certificate_of bytes.now }
        ensures found { IfSome result (λ c. IsCertificate c
            × (bytes.now ≡ certificate_text c)) }
        ensures none { IfNone result ((c : CertValue) → IsCertificate c
            → bytes.now ≢ certificate_text c) }
    {
        let parts = certificate(bytes)?;
        let header_bytes = &bytes[..parts.header.header_len()];
        Some(CertView {
            parts,
            header_bytes,
        })
    }

    /// The member who made it.
    pub fn author(&self) -> u8
        ensures { result ≡ self.now.header.author }
    {
        self.parts.header.author
    }

    /// The round that it was made in.
    pub fn round(&self) -> u32
        ensures { result ≡ self.now.header.round }
    {
        self.parts.header.round
    }

    /// The ids of its parents, at most 128, in its order.
    pub fn parents(&self) -> &'a [[u8; 32]]
        ensures { result.now ≡ self.now.header.parents }
    {
        self.parts.header.parents
    }

    /// The bytes of its header. They are the first of its bytes.
    pub fn header_bytes(&self) -> &'a [u8]
        ensures { result.now ≡ header_text self.now.header }
    {
        self.header_bytes
    }

    /// Who signed it.
    pub fn mask(&self) -> &Mask
        ensures same { result.now ≡ self.now.mask }
        ensures certificate { IsCertificate self.now }
    {
        &self.parts.mask
    }

    /// The tags of its signers, 32 bytes each, in ascending member number.
    pub fn tags(&self) -> &'a [[u8; 32]]
        ensures all { result.now ≡ self.now.tags }
        ensures certificate { IsCertificate self.now }
    {
        self.parts.tags
    }

    /// Its header, copied out of the bytes. O(n). It reserves twice.
    pub fn header(&self, alloc: Global) -> Result<Header, AllocError>
        ensures { IfOk result (λ h. h ≡ self.now.header) }
    {
        Header::of_parts(alloc, &self.parts.header)
    }
}
