//! What is rejected, by id.

ghost use Rattle.std.specs.Prelude.{IfOk};
ghost use Rattle.bk_diagnosis.specs.private.Rejects.{AreFirsts};

use bk_digest::Digest32;
use bk_order::Reject;
use std::alloc::{AllocError, Global};
use std::collections::BTreeMap;

/// The first with each id that is rejected. An id is found in O(log n), whatever its bytes.
pub(crate) fn first_rejects(
    alloc: Global,
    rejected: &[Reject],
) -> Result<BTreeMap<Digest32, Reject>, AllocError>
    ensures { IfOk result (AreFirsts rejected.now) }
{
    let mut firsts = BTreeMap::new(alloc);
    // From the last one on, so that the first with an id is the one that stays.
    let count = rejected.len();
    for k in 0..count {
        let reject = rejected[count - 1 - k];
        if let Some(id) = reject.id {
            firsts.insert(id, reject)?;
        }
    }
    Ok(firsts)
}
