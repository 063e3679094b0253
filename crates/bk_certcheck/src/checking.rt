//! Certificates, each judged by itself.

ghost use Rattle.std.specs.Prelude.{IfOk};
ghost use Rattle.std.specs.List.{AllZip};
ghost use Rattle.bk_certcheck.specs.Verdicts.{IsVerdict};

use crate::each::check_each;
use crate::verdict::Verdict;
use bk_committee::Committee;
use rayon::prelude::*;
use std::alloc::{AllocError, Global};
use std::thread::Threads;

// This many certificates are worth a thread.
const FEWEST: usize = 8;

/// The verdict on the bytes of a certificate: the least rule that they break, or the certificate under its id. The id
/// is hashed once. O(n). It fails only where memory runs out.
pub fn check(alloc: Global, committee: &Committee, bytes: &[u8]) -> Result<Verdict, AllocError>
    ensures { IfOk result (IsVerdict committee.now bytes.now) }
{
    let mut verdicts = check_each(alloc, committee, &[bytes])?;
    let Some(verdict) = verdicts.pop() else {
        unreachable!();
    };
    Ok(verdict)
}

/// The verdict on each payload, in their order, found on as many threads as there are processors. It fails only where
/// memory runs out. O(n) in all bytes together.
pub fn check_all(
    rt: &(impl Threads + Sync),
    alloc: Global,
    committee: &Committee,
    payloads: &[&[u8]],
) -> Result<Vec<Verdict>, AllocError>
    ensures { IfOk result (λ verdicts. AllZip
        (λ bytes verdict. IsVerdict committee.now bytes.now verdict) payloads.now verdicts.items) }
{
    let verdicts = payloads
        .par_iter()
        .with_min_len(FEWEST)
        .map(
            |bytes: &&[u8]| -> Result<Verdict, AllocError>
                ensures { IfOk result (IsVerdict committee.entry.now bytes.now.now) }
            { check(alloc, committee, *bytes) },
        )
        .collect::<Result<Vec<Verdict>, AllocError>>(rt, alloc)?;
    verdicts
}
