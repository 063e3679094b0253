//! Laws of the definitions, each the contract of a function that does nothing.

ghost use Rattle.bk_rounds.specs.Laws.{AdmittedByParents, GoodIsFit};

/// In version One a certificate is admitted where its parents are: its number of parents is its
/// weight.
pub fn admission_by_parents()
    ensures { AdmittedByParents }
{}

/// A certificate that breaks no local rule of a committee is fit for the committee's table.
pub fn good_is_fit()
    ensures { GoodIsFit }
{}
