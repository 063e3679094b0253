//! Laws of the definitions, each the contract of a function that does nothing.

ghost use Rattle.bk_flatten.specs.Laws.{OrderGrows, OneOrder, OneWholeOrder, OrderedIsPresent, OrderHasHistory, BatchesGrow, FoundIsBatches, FoundStays, DigestsStay};

/// Where the one held set is part of the other, its order begins the other's.
pub fn order_grows()
    ensures { OrderGrows }
{}

/// Anchors have one order, and so have equal sets of certificates, in whichever order they came.
pub fn one_order()
    ensures anchors { OneOrder }
    ensures whole { OneWholeOrder }
{}

/// What is ordered up to an anchor is its history, and is admitted.
pub fn order_of_history()
    ensures history { OrderHasHistory }
    ensures present { OrderedIsPresent }
{}

/// Where held certificates and batches lie in others, the payloads in order begin the others'.
pub fn batches_grow()
    ensures { BatchesGrow }
{}

/// A list that is kept from step to step gives the batches of the order, and stays right as the
/// order and what is held grow.
pub fn batches_in_steps()
    ensures whole { FoundIsBatches }
    ensures found { FoundStays }
    ensures digests { DigestsStay }
{}
