//! The laws of conflicts and waits, as functions that do nothing: their clauses are the laws.

ghost use Rattle.bk_conflicts.specs.Laws.{EdgesConflict, ConflictsWait, ConflictsClash};
ghost use Rattle.bk_conflicts.specs.Laws.{SharedAccountsCount, ScenesAreSound, WordsShowRows};

/// A place waits directly only for an earlier place in conflict with it, and for every earlier
/// place in conflict it waits, directly or through places between.
pub fn waits_are_conflicts()
    ensures edges { EdgesConflict }
    ensures conflicts { ConflictsWait }
{}

/// Two places are in conflict exactly where the execution of a plan, seen word by word, has them
/// clash.
pub fn conflicts_are_clashes()
    ensures { ConflictsClash }
{}

/// In version Two each account that two transactions declare counts, whether or not it is there:
/// all have slots. In version One an account without a slot never counts.
pub fn shared_accounts_count()
    ensures { SharedAccountsCount }
{}

/// The execution of a plan on a ledger, seen word by word, is sound: what is written is declared,
/// chains of waits cover the conflicts, and a place changes what it writes alone, by what it reads
/// alone, as the fold does.
pub fn scene_is_sound()
    ensures { ScenesAreSound }
{}

/// Words that are those of the fold before a place show the rows before that place: a run that ends
/// with the words of the fold after all places ends with its accounts.
pub fn words_show_rows()
    ensures { WordsShowRows }
{}
