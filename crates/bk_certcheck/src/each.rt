//! Many certificates, judged in stages.

ghost use Rattle.std.specs.Prelude.{◌≡◌, ℕ, List, length, map, IfOk, IsTrue, ◌↔◌};
ghost use Rattle.std.specs.List.{AllZip};
ghost use Rattle.bk_cert.specs.Identity.{id_of};
ghost use Rattle.bk_certcheck.specs.Verdicts.{IsVerdict};
ghost use Rattle.bk_certcheck.specs.private.Stages.{AreLeft, IsByTags, IsLastVerdict, filled};

use crate::rule::Rule;
use crate::screening::screen;
use crate::tagging::{ids_of, tags_of};
use crate::verdict::{Checked, Verdict};
use bk_cert::CertView;
use bk_committee::Committee;
use bk_digest::Digest32;
use std::alloc::{AllocError, Global};

// Whether these are the same tags.
fn are_same(tags: &[[u8; 32]], own: &[Digest32]) -> bool
    requires { length own.now ≡ length tags.now }
    ensures { IsTrue result ↔ (tags.now ≡ own.now) }
{
    for (k, tag) in tags.iter().enumerate() {
        if tag != own[k].as_bytes() {
            return false;
        }
    }
    true
}

// The verdict on a certificate by the last rule, where its signers have these tags under its id.
fn judge_one(
    alloc: Global,
    view: &CertView<'_>,
    id: Digest32,
    own: &[Digest32],
) -> Result<Verdict, AllocError>
    requires id { id ≡ id_of view.now.header }
    requires all { length own.now ≡ length view.now.tags }
    ensures { IfOk result (IsByTags view.now own.now) }
{
    if !are_same(view.tags(), own) {
        return Ok(Verdict::Broken(Rule::Tag));
    }
    let header = view.header(alloc)?;
    Ok(Verdict::Good(Checked::new(id, header)))
}

// The verdict on each certificate by the last rule.
fn judge_left(
    alloc: Global,
    committee: &Committee,
    left: &[CertView<'_>],
) -> Result<Vec<Verdict>, AllocError>
    requires { AreLeft committee.now left.now }
    ensures { IfOk result
        (λ verdicts. AllZip (IsLastVerdict committee.now) left.now verdicts.items) }
{
    let ids = ids_of(alloc, left)?;
    let tags = tags_of(alloc, committee, left, &ids)?;
    let mut rest = tags.as_slice();
    let mut verdicts = Vec::with_capacity(alloc, left.len())?;
    for (k, view) in left.iter().enumerate() {
        let (own, later) = rest.split_at(view.tags().len());
        verdicts.push(judge_one(alloc, view, Digest32::new(ids[k]), own)?)?;
        rest = later;
    }
    Ok(verdicts)
}

// The rules that are broken, and where there is none the next of these verdicts.
fn fill(
    alloc: Global,
    broken: &[Option<Rule>],
    verdicts: Vec<Verdict>,
) -> Result<Vec<Verdict>, AllocError>
    ensures { IfOk result (λ all. all.items ≡ filled broken.now verdicts.items) }
{
    let mut verdicts = verdicts.into_iter();
    let mut all = Vec::with_capacity(alloc, broken.len())?;
    for rule in broken {
        let verdict = match rule {
            Some(rule) => Verdict::Broken(*rule),
            None => match verdicts.next() {
                Some(verdict) => verdict,
                None => break,
            },
        };
        all.push(verdict)?;
    }
    Ok(all)
}

/// The verdict on each payload, in their order. All rules that need no hash are tested first; then the ids of the
/// certificates that are left are hashed side by side, then all their tags. It fails only where memory runs out. O(n).
pub fn check_each(
    alloc: Global,
    committee: &Committee,
    payloads: &[&[u8]],
) -> Result<Vec<Verdict>, AllocError>
    ensures { IfOk result (λ verdicts. AllZip
        (λ bytes verdict. IsVerdict committee.now bytes.now verdict) payloads.now verdicts.items) }
{
    let screened = screen(alloc, committee, payloads)?;
    let verdicts = judge_left(alloc, committee, &screened.left)?;
    fill(alloc, &screened.broken, verdicts)
}
