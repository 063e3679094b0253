//! The difference that a stop is.

ghost use Rattle.std.specs.Prelude.{◌≡◌};
ghost use Rattle.bk_follow.specs.private.Comparing.{differ_of};

use bk_evidence::Evidence;
use bk_order::Stop;
pub use bk_results::{Agreed, Differ, SetupPart};

/// The difference of two feeds that are stopped together.
pub(crate) fn differing(stop: Stop) -> Differ
    ensures { result ≡ differ_of stop }
{
    match stop {
        Stop::Collision(id) => Differ::Collision { id },
        Stop::Twins(twins) => {
            let Evidence {
                round,
                author,
                first,
                second,
            } = twins;
            Differ::Twins {
                round,
                author,
                first,
                second,
            }
        }
    }
}
