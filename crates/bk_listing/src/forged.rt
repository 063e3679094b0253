//! The first certificate whose tags are wrong, and whose tag of it is.

ghost use Rattle.std.specs.Prelude.{◌≡◌, ◌≢◌, ◌<◌, ◌↔◌, ◌+◌, ◌^◌, Option, None, Some, IfSome, IsTrue, List, ℕ, length, slice_get, slice_index_or, []};
ghost use Rattle.std.specs.List.{AllZip};
ghost use Rattle.bk_frames.specs.Cutting.{frames_in};
ghost use Rattle.bk_cert.specs.Identity.{id_of, tag_of, tags_by};
ghost use Rattle.bk_cert.specs.Mask.{is_signer, signers_of};
ghost use Rattle.bk_cert.specs.Reading.{certificate_of};
ghost use Rattle.bk_cert.specs.Values.{CertValue};
ghost use Rattle.bk_certcheck.specs.Verdicts.{IsVerdict};
ghost use Rattle.bk_certcheck.specs.declared.rule.Rule.TheVariants as rule;
ghost use Rattle.bk_certcheck.specs.declared.verdict.Verdict.TheVariants as verdict;
ghost use Rattle.bk_listing.specs.Forged.{HasWrongTag, IsFirstForged};
ghost use Rattle.bk_listing.specs.private.FrameRow.{IsRow, else_later, is_forged};

use crate::rows::FrameRow;
use bk_base::Kind;
use bk_cert::{CertView, id_of_bytes};
use bk_certcheck::Rule;
use bk_committee::Committee;
use bk_digest::Digest32;
use bk_results::WrongTag;

// Whether two tags are the same.
fn same_tag(one: &[u8; 32], other: &[u8; 32]) -> bool
    ensures { IsTrue result ↔ (one.now ≡ other.now) }
{
    *one == *other
}

// Whether the tag at a place is this member's of an id.
fn is_own(committee: &Committee, tags: &[[u8; 32]], id: &Digest32, place: usize, member: u8) -> bool
    requires place { place < length tags.now }
    requires member { member < length committee.now.keys }
    ensures { IsTrue result ↔ (slice_get tags.now place
        ≡ Some (tag_of (slice_index_or committee.now.keys member []) id.now)) }
{
    let own = committee.mac(member as usize).tag(id.as_bytes());
    same_tag(&tags[place], own.as_bytes())
}

// The first signer of a certificate with this id whose tag is not that of its key.
fn signer_of(committee: &Committee, view: &CertView<'_>, id: &Digest32) -> u8
    requires id { id.now ≡ id_of view.now.header }
    requires members { (member : ℕ) → IsTrue (is_signer view.now.mask member)
        → member < length committee.now.keys }
    requires wrong { view.now.tags ≢ tags_by committee.now.keys view.now.header
        (signers_of view.now.mask) }
    ensures { HasWrongTag committee.now view.now result }
{
    let tags = view.tags();
    let mask = view.mask();
    let mut place = 0;
    for member in 0..committee.n() as u8 {
        if mask.has(member) {
            if !is_own(committee, tags, id, place, member) {
                return member;
            }
            place += 1;
        }
    }
    unreachable!()
}

// The first signer whose tag is not that of its key, of a certificate that is rejected for its tags.
fn wrong_signer(committee: &Committee, payload: &[u8]) -> u8
    requires { IsVerdict committee.now payload.now (verdict.Broken rule.Tag) }
    ensures { (c : CertValue) × (certificate_of payload.now ≡ Some c)
        × HasWrongTag committee.now c result }
{
    let Some(view) = CertView::of(payload) else {
        unreachable!()
    };
    let id = id_of_bytes(view.header_bytes());
    signer_of(committee, &view, &id)
}

// Whether a row is of a certificate that is rejected for its tags.
fn is_forged(row: &FrameRow) -> bool
    ensures { result ≡ is_forged row.now }
{
    match row {
        FrameRow::Broken(_, Rule::Tag) => true,
        FrameRow::Broken(_, _)
        | FrameRow::Malformed
        | FrameRow::Committee(_)
        | FrameRow::Genesis(_, _, _)
        | FrameRow::Good(_)
        | FrameRow::Batch(_, _)
        | FrameRow::Void(_) => false,
    }
}

/// The first of these frames that is a certificate rejected for its tags, and its first signer whose tag is not that of
/// its key; none where there is no such frame. The rows are those of the frames.
pub(crate) fn first_forged(
    committee: &Committee,
    frames: &[(Kind, Vec<u8>)],
    rows: &[FrameRow],
) -> Option<WrongTag>
    requires { AllZip (IsRow committee.now) (frames_in frames.now) rows.now }
    ensures { IsFirstForged committee.now (frames_in frames.now) result }
{
    for (i, frame) in frames.iter().enumerate() {
        if is_forged(&rows[i]) {
            let signer = wrong_signer(committee, &frame.1);
            return Some(WrongTag {
                frame: i as u64,
                signer,
            });
        }
    }
    None
}

/// What was found of the frames before, else what was found of those that come after so many.
pub(crate) fn or_later(
    before: Option<WrongTag>,
    count: u64,
    found: Option<WrongTag>,
) -> Option<WrongTag>
    requires { IfSome found (λ w. count + w.frame < 2 ^ 64) }
    ensures { result ≡ else_later before count found }
{
    match (before, found) {
        (Some(first), _) => Some(first),
        (None, Some(later)) => Some(WrongTag {
            frame: count + later.frame,
            signer: later.signer,
        }),
        (None, None) => None,
    }
}
