//! Laws of the evidence, each the contract of a function that does nothing.

ghost use Rattle.bk_diagnosis.specs.EvidenceLaws.{EvidenceIsExact, EvidenceStays, EvidenceStopsFeed, FirstIsStop, OneListOfEvidence};
ghost use Rattle.bk_diagnosis.specs.Laws.{EvidenceStops};

/// There is evidence exactly where something stops a feed, and the first line is then that of the stop.
pub fn evidence_stops()
    ensures held { EvidenceStops }
    ensures feed { EvidenceStopsFeed }
    ensures first { FirstIsStop }
{}

/// Each line of the evidence holds, and whatever of its kind holds has a line.
pub fn evidence_is_exact()
    ensures { EvidenceIsExact }
{}

/// What a line says is said of each larger feed: an id that collides keeps its line, and two ids of a place have their
/// lines, with the least of the place, which may be another then.
pub fn evidence_stays()
    ensures { EvidenceStays }
{}

/// A feed has one list of evidence, in whatever order its frames are held.
pub fn one_list_of_evidence()
    ensures { OneListOfEvidence }
{}
