//! Laws of the definitions, each the contract of a function that does nothing.

ghost use Rattle.bk_evidence.specs.Laws.{ClearIsNeither, CollisionOfMembers, EvidenceOfMembers, OneAnswer, OneBatchAnswer, OneCollision, OneEvidence};

/// Neither a collision nor twins is held exactly where what is held is clear for admission.
pub fn clear_is_neither()
    ensures { ClearIsNeither }
{}

/// An offer of a certificate has one answer.
pub fn one_answer()
    ensures { OneAnswer }
{}

/// An offer of a batch has one answer.
pub fn one_batch_answer()
    ensures { OneBatchAnswer }
{}

/// There is at most one collision to name.
pub fn one_collision()
    ensures { OneCollision }
{}

/// There is at most one evidence to name.
pub fn one_evidence()
    ensures { OneEvidence }
{}

/// The evidence is of what is held, in whatever order it came.
pub fn evidence_of_members()
    ensures { EvidenceOfMembers }
{}

/// The collision is of what is held, in whatever order it came.
pub fn collision_of_members()
    ensures { CollisionOfMembers }
{}
