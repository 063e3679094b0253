//! The fault that a stop is.

ghost use Rattle.std.specs.Prelude.{◌≡◌};
ghost use Rattle.bk_answer.specs.RunReport.{fault_of};
ghost use Rattle.bk_follow.specs.private.Ledgers.{fault_of_execution};

use bk_evidence::Evidence;
use bk_ledger::ExecFault;
use bk_order::Stop;
pub use bk_results::Fault;

/// The fault of a feed that is stopped.
pub(crate) fn stopped(stop: Stop) -> Fault
    ensures { result ≡ fault_of stop }
{
    match stop {
        Stop::Collision(id) => Fault::Collision { id },
        Stop::Twins(twins) => {
            let Evidence {
                round,
                author,
                first,
                second,
            } = twins;
            Fault::Equivocation {
                round,
                author,
                first,
                second,
            }
        }
    }
}

/// The fault of an order whose batches were not all executed.
pub(crate) fn unexecuted(why: ExecFault) -> Fault
    ensures { result ≡ fault_of_execution why }
{
    match why {
        ExecFault::OutOfMemory => Fault::Memory,
        ExecFault::Unfinished(place) => Fault::Unfinished { place },
    }
}
