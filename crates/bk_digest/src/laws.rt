//! Laws of the definitions, for an auditor and for the proofs of callers. The functions do nothing:
//! their contracts are what is proved.

ghost use Rattle.bk_digest.specs.Laws.{RootIsMerkleTreeHash, PathIsMerkleAuditPath, ClimbGoesUp, OwnPathLeadsToRoot};

/// The root meets the three equations of RFC 6962, section 2.1.
pub fn root_is_merkle_tree_hash()
    ensures { RootIsMerkleTreeHash }
{}

/// The path meets the three equations of RFC 6962, section 2.1.1.
pub fn path_is_merkle_audit_path()
    ensures { PathIsMerkleAuditPath }
{}

/// The climb takes one hash of the path at each level, from the path's end down.
pub fn climb_goes_up()
    ensures { ClimbGoesUp }
{}

/// The climb along a list's own path ends at the list's root.
pub fn own_path_leads_to_root()
    ensures { OwnPathLeadsToRoot }
{}
