//! Laws of the definitions, each the contract of a function that does nothing.

ghost use Rattle.bk_diagnosis.specs.Laws.{FirstIsMissing, GainedIsWhole, WaitsWhereKept};

/// A certificate of a round after the first waits exactly where a parent has a line, or where none has one and their
/// authors weigh less than a quorum.
pub fn waits_where_kept()
    ensures { WaitsWhereKept }
{}

/// The digest in the first line of what an order lacks is the one at which the order of batches stops, and there is a
/// line exactly where it stops.
pub fn first_is_missing()
    ensures { FirstIsMissing }
{}

/// The order of a feed that gained a batch for each digest that was missing stops at none.
pub fn gained_is_whole()
    ensures { GainedIsWhole }
{}
