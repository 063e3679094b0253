//! The laws of the words, as functions that do nothing: words that are laid show the beginning of a
//! course, and whatever a step's seat does to them is the event of the course that they show, or
//! none. A seat's number is its worker's.

ghost use Rattle.bk_bank.specs.Laws.{LaidWordsShowOpening};
ghost use Rattle.bk_bank.specs.Laws.{ClaimIsEvent, LookIsNone, ReadIsEvent, WriteIsEvent, MoveIsNone, FinishIsEvent, ReleaseIsNone, SplitIsNone, JoinIsNone};

/// The words that a bank begins with show that nothing has happened.
pub fn laid_words_show_opening()
    ensures { LaidWordsShowOpening }
{}

/// A seat at rest takes a place, looks at one, is split, and is joined with another.
pub fn passes_are_events()
    ensures claim { ClaimIsEvent }
    ensures look { LookIsNone }
    ensures split { SplitIsNone }
    ensures join { JoinIsNone }
{}

/// A seat that holds a place reads and writes its words, and leaves it.
pub fn holds_are_events()
    ensures read { ReadIsEvent }
    ensures write { WriteIsEvent }
    ensures moved { MoveIsNone }
    ensures finish { FinishIsEvent }
{}

/// A seat that left its place releases the successors.
pub fn releases_are_none()
    ensures { ReleaseIsNone }
{}
