//! The laws of bundles, as functions that do nothing: their clauses are the laws.

ghost use Rattle.bk_bundles.specs.Bundled.{BundlesAreSound, LastFoldIsFold};
ghost use Rattle.bk_bundles.specs.Planned.{BundleRunsAreRuns, PlansFit, PlannedEdgesAreEdges, BundlesOfPlansLeaveFold};
ghost use Rattle.bk_bundles.specs.Merged.{BundlesCanBePlanned};

/// The bundles of a sound scene, with edges between them, are a sound scene.
pub fn bundles_are_sound()
    ensures { BundlesAreSound }
{}

/// After the last bundle the words are those after the last place, and each place has its receipt.
pub fn last_fold_is_fold()
    ensures { LastFoldIsFold }
{}

/// Whatever a whole run of the bundles leaves, a whole run of the places leaves.
pub fn bundle_runs_are_runs()
    ensures { BundleRunsAreRuns }
{}

/// The receipts of a plan's transactions fit into one word each; what a planner finds from the unions of their accesses are
/// edges of the bundles; and a whole run of the bundles leaves the transactions' accounts and receipts, one at a time.
pub fn bundles_of_plans()
    ensures fit { PlansFit }
    ensures edges { PlannedEdgesAreEdges }
    ensures fold { BundlesOfPlansLeaveFold }
{}

/// For each plan and width there is what a planner has to find.
pub fn bundles_can_be_planned()
    ensures { BundlesCanBePlanned }
{}
