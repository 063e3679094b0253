//! Laws of the definitions, each the contract of a function that does nothing.

ghost use Rattle.bk_order.specs.Agreement.{PartsAgree};
ghost use Rattle.bk_order.specs.Laws.{FramesAreASet, NothingIsOrdered, OneOrderOfFrames, OrderOfFramesGrows};
ghost use Rattle.bk_order.specs.Laws.{OneListOfRejects, OneListOfWaiting, OneStop, NoStopOfClear};

/// The stop and the order are those of the frames as a set.
pub fn frames_are_a_set()
    ensures { FramesAreASet }
{}

/// Frames without a stop have one order, and as more of them come it only grows. No frames order nothing.
pub fn order_of_frames_grows()
    ensures grows { OrderOfFramesGrows }
    ensures one { OneOrderOfFrames }
    ensures none { NothingIsOrdered }
{}

/// Frames have one list of what is rejected, and one of what waits.
pub fn frames_have_one_list()
    ensures rejects { OneListOfRejects }
    ensures waiting { OneListOfWaiting }
{}

/// Frames have at most one stop, and none where they have neither a collision nor twins.
pub fn frames_have_one_stop()
    ensures one { OneStop }
    ensures none { NoStopOfClear }
{}

/// Of two parts of frames that have no stop the one order begins the other, and so does the one list of payloads.
pub fn parts_agree()
    ensures { PartsAgree }
{}
