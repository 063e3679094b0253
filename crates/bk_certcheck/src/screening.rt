//! The first stage: the rules that need no hash.

ghost use Rattle.std.specs.Prelude.{map, IfOk, MatchResult};
ghost use Rattle.bk_certcheck.specs.Verdicts.{IsBroken};
ghost use Rattle.bk_certcheck.specs.private.Stages.{IsLeft, AreScreened};

use crate::rule::Rule;
use crate::tests_of_rules::first_broken;
use bk_cert::CertView;
use bk_committee::Committee;
use std::alloc::{AllocError, Global};

// For each payload the rule that it breaks first, if it is not the last; and the certificates that break none before
// the last, in their order.
#[derive(Drop)]
pub(crate) struct Screened<'a> {
    pub broken: Vec<Option<Rule>>,
    pub left: Vec<CertView<'a>>,
}

// The certificate that the bytes encode, where they break no rule before the last; else the first that they break.
fn screen_one<'a>(committee: &Committee, bytes: &'a [u8]) -> Result<CertView<'a>, Rule>
    ensures { MatchResult result (IsLeft committee.now bytes.now)
        (IsBroken committee.now bytes.now) }
{
    let Some(view) = CertView::of(bytes) else {
        return Err(Rule::Shape);
    };
    match first_broken(committee, &view) {
        Some(rule) => Err(rule),
        None => Ok(view),
    }
}

// Each payload, tested by the rules before the last.
pub(crate) fn screen<'a>(
    alloc: Global,
    committee: &Committee,
    payloads: &[&'a [u8]],
) -> Result<Screened<'a>, AllocError>
    ensures { IfOk result (λ s. AreScreened committee.now
        (map (λ bytes. bytes.now) payloads.now) s.broken.items s.left.items) }
{
    let mut broken = Vec::with_capacity(alloc, payloads.len())?;
    let mut left = Vec::with_capacity(alloc, payloads.len())?;
    for bytes in payloads {
        match screen_one(committee, bytes) {
            Ok(view) => {
                broken.push(None)?;
                left.push(view)?;
            }
            Err(rule) => broken.push(Some(rule))?,
        }
    }
    Ok(Screened { broken, left })
}
