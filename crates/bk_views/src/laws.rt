//! Laws of the definitions, each the contract of a function that does nothing.

ghost use Rattle.bk_views.specs.Laws.{AmountsAddUp, VotedIsCommitted};

/// A row whose votes are enough says that its anchor is voted: no row that is linked, skipped or open has them.
pub fn voted_is_committed()
    ensures { VotedIsCommitted }
{}

/// The amounts of a statement lead from the opening to the closing balance.
pub fn amounts_add_up()
    ensures { AmountsAddUp }
{}
