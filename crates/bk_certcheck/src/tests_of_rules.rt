//! A test for each rule but the first.

ghost use Rattle.std.specs.Prelude.{◌≡◌, ◌/◌, ◌<◌, ◌≤◌, ◌↔◌, ◌^◌, ℕ, IsTrue, IfSome, IfNone, length, Contains, Some, ◌≢◌, All};
ghost use Rattle.std.specs.List.Sorted.{IsStrictlySortedBy};
ghost use Rattle.std.specs.Ordering.{nat_cmp};
ghost use Rattle.std.specs.Cmp.Lexicographic.{slice_cmp};
ghost use Rattle.bk_committee.specs.Payload.{sizes_of};
ghost use Rattle.bk_committee.specs.Sizes.{weight_of};
ghost use Rattle.bk_cert.specs.Mask.{is_signer, signers_of};
ghost use Rattle.bk_certcheck.specs.Rules.{Breaks, BreaksNoneBelow, rule_number, wrong_parents, least_parents};
ghost use Rattle.bk_certcheck.specs.declared.rule.Rule.TheVariants as rule;

use crate::rule::{MOST_ROUND, Rule};
use bk_base::Version;
use bk_cert::{CertView, Mask};
use bk_committee::Committee;
use std::cmp::Ordering;

// How many parents a certificate of a later round has at least.
fn fewest_parents(committee: &Committee) -> u64
    ensures { result ≡ least_parents committee.now.version (sizes_of committee.now) }
{
    match committee.version() {
        Version::One => committee.quorum(),
        Version::Two => 1,
    }
}

fn has_wrong_parents(committee: &Committee, cert: &CertView<'_>) -> bool
    ensures { result ≡ wrong_parents committee.now cert.now.header }
{
    let count = cert.parents().len();
    if cert.round() == 1 {
        0 < count
    } else {
        (count as u64) < fewest_parents(committee) || committee.n() < count
    }
}

fn do_ascend(ids: &[[u8; 32]]) -> bool
    ensures { IsTrue result ↔ IsStrictlySortedBy (slice_cmp nat_cmp) ids.now }
{
    for i in 1..ids.len() {
        match ids[i - 1].cmp(&ids[i]) {
            Ordering::Less => {}
            Ordering::Equal | Ordering::Greater => return false,
        }
    }
    true
}

// Whether one of the eight members of a byte of the mask is marked, from a number on.
fn marks_from(mask: &Mask, at: usize, from: usize) -> bool
    requires { at < 16 }
    ensures { IsTrue result ↔ ((member : ℕ) × IsTrue (is_signer mask.now member)
        × (member / 8 ≡ at) × (from ≤ member)) }
{
    if mask.as_bytes()[at] == 0 {
        return false;
    }
    for member in (8 * at).max(from)..8 * at + 8 {
        if mask.has(member as u8) {
            return true;
        }
    }
    false
}

// Whether a member at or above the number of members is marked. A byte that is 0 costs one look.
fn marks_strangers(committee: &Committee, mask: &Mask) -> bool
    ensures { IsTrue result ↔ ((member : ℕ) × Contains (signers_of mask.now) member
        × (length committee.now.keys ≤ member)) }
{
    let members = committee.n();
    for at in members / 8..16 {
        if marks_from(mask, at, members) {
            return true;
        }
    }
    false
}

// The weight of the members that are marked.
fn weight_of_signers(committee: &Committee, mask: &Mask) -> u64
    requires { (member : ℕ) → IsTrue (is_signer mask.now member)
        → member < length committee.now.keys }
    ensures { result ≡ weight_of (sizes_of committee.now) (signers_of mask.now) }
{
    let mut weight: u64 = 0;
    for member in 0..committee.n() as u8 {
        if mask.has(member) {
            weight += u64::from(committee.weight(member as usize));
        }
    }
    weight
}

// The first rule that the certificate breaks, but for the last.
pub(crate) fn first_broken(committee: &Committee, cert: &CertView<'_>) -> Option<Rule>
    ensures some { IfSome result (λ r. Breaks committee.now cert.now r
        × BreaksNoneBelow committee.now cert.now (rule_number r)
        × (r ≢ rule.Shape)) }
    ensures none { IfNone result (BreaksNoneBelow committee.now cert.now 7) }
{
    if usize::from(cert.author()) >= committee.n() {
        return Some(Rule::Author);
    }
    if cert.round() == 0 || cert.round() > MOST_ROUND {
        return Some(Rule::Round);
    }
    if has_wrong_parents(committee, cert) {
        return Some(Rule::Parents);
    }
    if !do_ascend(cert.parents()) {
        return Some(Rule::ParentOrder);
    }
    if marks_strangers(committee, cert.mask()) {
        return Some(Rule::Signer);
    }
    if weight_of_signers(committee, cert.mask()) < committee.quorum() {
        return Some(Rule::Quorum);
    }
    None
}
