//! The fields of a certificate, cut from its bytes. Nothing here takes memory.

ghost use Rattle.std.specs.Prelude.{◌≡◌, ◌≤◌, ℕ, length, option_map};
ghost use Rattle.bk_base.specs.Numbers.{bytes_at};
ghost use Rattle.bk_cert.specs.Values.{HeaderValue, CertValue, header_with, cert_with};
ghost use Rattle.bk_cert.specs.Spelling.{IsHeader, header_text};
ghost use Rattle.bk_cert.specs.Reading.{digests_at, header_at, certificate_of};

use crate::header::{MOST_BATCHES, MOST_PARENTS};
use crate::mask::Mask;
use bk_base::Fields;
use std::marker::Model;

/// The fields of a header, as they are in the bytes. Contracts see them as the header.
#[derive(Drop)]
pub struct HeaderParts<'a> {
    pub author: u8,
    pub round: u32,
    pub batches: &'a [[u8; 32]],
    pub parents: &'a [[u8; 32]],
}

impl<'a> Model for HeaderParts<'a> {
    ghost use Rattle.bk_cert.specs.Values.{HeaderValue, header_with};

    ghost Value = { HeaderValue };

    ghost view = { λ h. header_with h.author h.round h.batches.now h.parents.now };
}

impl<'a> HeaderParts<'a> {
    /// How many bytes the header takes.
    pub fn header_len(&self) -> usize
        requires { IsHeader self.now }
        ensures { result ≡ length (header_text self.now) }
    {
        8 + 32 * (self.batches.len() + self.parents.len())
    }
}

/// The fields of a certificate, as they are in the bytes. Contracts see them as the certificate.
#[derive(Drop)]
pub struct Parts<'a> {
    pub header: HeaderParts<'a>,
    pub mask: Mask,
    pub tags: &'a [[u8; 32]],
}

impl<'a> Model for Parts<'a> {
    ghost use Rattle.bk_cert.specs.Values.{CertValue, cert_with};

    ghost Value = { CertValue };

    ghost view = { λ p. cert_with p.header p.mask p.tags.now };
}

fn digests<'a>(count: usize, fields: &mut Fields<'a>) -> Option<&'a [[u8; 32]]>
    requires { count ≤ 1000 }
    ensures { option_map (λ ds. (ds.now, fields.new)) result ≡ digests_at count fields.old }
{
    let run = fields.take(32 * count)?;
    let (digests, _) = run.as_chunks::<32>();
    Some(digests)
}

fn mask(fields: &mut Fields) -> Option<Mask>
    ensures { option_map (λ m. (m, fields.new)) result ≡ bytes_at 16 fields.old }
{
    let mut bytes = [0; 16];
    bytes.copy_from_slice(fields.take(16)?);
    Some(Mask::new(bytes))
}

#[tactic(auto, unfolding(crate::specs::Reading::header_at))]
fn header<'a>(fields: &mut Fields<'a>) -> Option<HeaderParts<'a>>
    ensures { option_map (λ h. (h, fields.new)) result ≡ header_at fields.old }
{
    let author = fields.u8()?;
    let round = fields.u32()?;
    let batch_count = fields.u16()? as usize;
    if batch_count > MOST_BATCHES {
        return None;
    }
    let batches = digests(batch_count, fields)?;
    let parent_count = fields.u8()? as usize;
    if parent_count > MOST_PARENTS {
        return None;
    }
    let parents = digests(parent_count, fields)?;
    Some(HeaderParts {
        author,
        round,
        batches,
        parents,
    })
}

/// The fields of the certificate that the bytes encode, all of the bytes.
#[tactic(auto, unfolding(crate::specs::Reading::certificate_of))]
pub fn certificate<'a>(bytes: &'a [u8]) -> Option<Parts<'a>>
    ensures { result ≡ certificate_of bytes.now }
{
    let mut fields = Fields::new(bytes);
    let header = header(&mut fields)?;
    let mask = mask(&mut fields)?;
    let tags = digests(mask.len(), &mut fields)?;
    if !fields.rest().is_empty() {
        return None;
    }
    Some(Parts { header, mask, tags })
}
