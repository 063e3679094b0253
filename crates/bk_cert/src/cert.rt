//! Certificates: read, written and sealed.

ghost use Rattle.std.specs.Prelude.{◌≡◌, ◌≢◌, ◌<◌, ◌≤◌, ℕ, length, All, IsTrue, IsSome, IfOk, OnErr, IfSome, IfNone};
ghost use Rattle.bk_cert.specs.Values.{CertValue, cert_with};
ghost use Rattle.bk_cert.specs.Mask.{is_signer};
ghost use Rattle.bk_cert.specs.Spelling.{IsCertificate, certificate_text};
ghost use Rattle.bk_cert.specs.Reading.{certificate_of};
ghost use Rattle.bk_cert.specs.Identity.{IsSealOf};
ghost use Rattle.bk_cert.specs.Tagging.{tags_under};

use crate::header::{Header, digests_of};
use crate::mask::Mask;
use crate::tagging::want_tags;
use crate::view::CertView;
use crate::writing::{put_digests, put_header};
use bk_committee::Committee;
use bk_digest::{Digest32, tags_each};
use std::alloc::{AllocError, Global};
use std::marker::Model;

/// A header, and the tags of its signers under its id. Contracts see it as its values.
///
/// The tags are as they came: that each is its member's is not known here.
#[derive(Debug, Drop)]
pub struct Cert {
    header: Header,
    mask: Mask,
    tags: Vec<Digest32>,
}

impl Model for Cert {
    ghost use Rattle.bk_cert.specs.Values.{CertValue, cert_with};
    ghost use Rattle.bk_cert.specs.Spelling.{IsCertificate};

    ghost Value = { CertValue };

    ghost view = { λ c. cert_with c.header c.mask c.tags.items };

    ghost invariant = { λ c. IsCertificate (cert_with c.header c.mask c.tags.items) };
}

impl Cert {
    /// The certificate that the bytes encode, all of the bytes; nothing where they encode none. O(n).
    ///
    /// It reserves three times at most, for no more than the bytes hold. An `Err` comes only for lack of
    /// memory, and only for bytes that do encode a certificate.
    pub fn decode(alloc: Global, bytes: &[u8]) -> Result<Option<Cert>, AllocError>
        ensures exact { IfOk result (λ found. found ≡ certificate_of bytes.now) }
        ensures found { IfOk result (λ found. IfSome found (λ c. IsCertificate c
            × (bytes.now ≡ certificate_text c))) }
        ensures none { IfOk result (λ found. IfNone found ((c : CertValue) → IsCertificate c
            → bytes.now ≢ certificate_text c)) }
        ensures refused { OnErr result (IsSome (certificate_of bytes.now)) }
    {
        let Some(view) = CertView::of(bytes) else {
            return Ok(None);
        };
        let header = view.header(alloc)?;
        let tags = digests_of(alloc, view.tags())?;
        Ok(Some(Cert {
            header,
            mask: *view.mask(),
            tags,
        }))
    }

    /// Its header.
    pub fn header(&self) -> &Header
        ensures same { result.now ≡ self.now.header }
        ensures certificate { IsCertificate self.now }
    {
        &self.header
    }

    /// Its header, taken out of it.
    pub fn into_header(self) -> Header
        ensures { result ≡ self.header }
    {
        self.header
    }

    /// Who signed it.
    pub fn mask(&self) -> &Mask
        ensures same { result.now ≡ self.now.mask }
        ensures certificate { IsCertificate self.now }
    {
        &self.mask
    }

    /// The tags of its signers, in ascending member number.
    pub fn tags(&self) -> &[Digest32]
        ensures all { result.now ≡ self.now.tags }
        ensures certificate { IsCertificate self.now }
    {
        &self.tags
    }

    /// Its one encoding, O(n). It reserves once.
    pub fn encode(&self, alloc: Global) -> Result<Vec<u8>, AllocError>
        ensures { IfOk result (λ text. text.items ≡ certificate_text self.now) }
    {
        let size = self.header.header_len() + 16 + 32 * self.tags.len();
        let mut text = Vec::with_capacity(alloc, size)?;
        put_header(&mut text, &self.header)?;
        text.extend_from_slice(self.mask.as_bytes())?;
        put_digests(&mut text, &self.tags)?;
        Ok(text)
    }

    /// The header, sealed by these members of the committee, each under its own key (RFC 2104). The tags are made
    /// side by side.
    ///
    /// The signers come in any order. One who is named twice signs once, and none may be named. It reserves
    /// twice.
    pub fn seal(
        alloc: Global,
        header: Header,
        committee: &Committee,
        signers: &[u8],
    ) -> Result<Cert, AllocError>
        requires { All (λ signer. signer < length committee.now.keys) signers.now }
        ensures seal { IfOk result (IsSealOf committee.now.keys header signers.now) }
        ensures certificate { IfOk result IsCertificate }
    {
        // A committee has 128 members at most, so the mask has a bit for each signer.
        let _ = committee.n();
        let mask = Mask::of(signers);
        let tags = tags_of(alloc, committee, &mask, header.id())?;
        Ok(Cert { header, mask, tags })
    }
}

// The tags of an id by the members that the mask marks, in ascending member number. All are made side by side.
fn tags_of(
    alloc: Global,
    committee: &Committee,
    mask: &Mask,
    id: Digest32,
) -> Result<Vec<Digest32>, AllocError>
    requires { (member : ℕ) → IsTrue (is_signer mask.now member)
        → member < length committee.now.keys }
    ensures { IfOk result (λ tags. tags.items ≡ tags_under committee.now.keys id mask.now) }
{
    let mut wanted = Vec::with_capacity(alloc, mask.len())?;
    want_tags(committee, mask, id, &mut wanted)?;
    tags_each(alloc, &wanted)
}
