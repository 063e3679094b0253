//! The tags that a seal needs, gathered so that they are made side by side.

ghost use Rattle.std.specs.Prelude.{◌<◌, ◌++◌, ℕ, List, length, IsTrue, OnOk};
ghost use Rattle.bk_cert.specs.Mask.{is_signer};
ghost use Rattle.bk_cert.specs.Tagging.{AreTagsOf, tags_under};

use crate::mask::Mask;
use bk_committee::Committee;
use bk_digest::{Digest32, ToTag};
use std::alloc::AllocError;

/// Adds the id under the key of each member that the mask marks, by ascending member, to what is to be tagged
/// (`bk_digest::tags_each` makes the tags).
///
/// It fails only where memory does.
pub fn want_tags<'a>(
    committee: &'a Committee,
    mask: &Mask,
    id: Digest32,
    wanted: &mut Vec<ToTag<'a>>,
) -> Result<(), AllocError>
    requires { (member : ℕ) → IsTrue (is_signer mask.now member)
        → member < length committee.now.keys }
    ensures { OnOk result ((tags : List (List ℕ)) → AreTagsOf wanted.old.items tags
        → AreTagsOf wanted.new.items (tags ++ tags_under committee.now.keys id mask.now)) }
{
    // `requires` says that only members are marked.
    for member in 0..committee.n() as u8 {
        if mask.has(member) {
            let key = committee.mac(member as usize);
            // The toolchain has no rule for `?` on what a push of a `ToTag` returns.
            if wanted.push(ToTag { key, id }).is_err() {
                return Err(AllocError);
            }
        }
    }
    Ok(())
}
