//! What a digest binds: laws, each the contract of a function that does nothing.
//!
//! `check-proof` and `check-state` compare digests, and so does a reader of two reports. Equal digests are those of the
//! same accounts, or SHA-256 has a collision among the byte strings that were hashed. Nothing is supposed of SHA-256.

ghost use Rattle.bk_laws.specs.Binding.{AccountsBind, GoodPathsHold, GoodProofsHold, GoodStatesHold, OneProof, ReportsEndInState, RootsBind, StatesBind};
ghost use Rattle.bk_laws.specs.Chained.{ChainsCountOnce, DigestsSuffice, LinksAreOfReports, LinksFit};

/// Where the climb from the hash of a leaf, with any index, size and path, gives the root of a list of leaves, the leaf
/// is in the list, or there is a hash collision.
pub fn good_paths_hold()
    ensures { GoodPathsHold }
{}

/// Two lists of leaves with one root are the same, lengths too, or there is a hash collision.
pub fn roots_bind()
    ensures { RootsBind }
{}

/// A text that is a good proof for the digest in the last line of a feed's report shows one of the accounts at the end
/// of that feed, with balance and sequence number, or there is a hash collision.
pub fn good_proofs_hold()
    ensures { GoodProofsHold }
{}

/// Two feeds whose reports end in one `state` line have the same accounts at the end, or there is a hash collision. So
/// have two lists of accounts with one digest, and a feed that does not reply `state bad` to the digest of claimed
/// accounts has these at its end. Every report ends in a `state` line.
pub fn states_bind()
    ensures feeds { StatesBind }
    ensures accounts { AccountsBind }
    ensures good { GoodStatesHold }
    ensures ends { ReportsEndInState }
{}

/// Two texts that are good proofs for one such digest and show one id show the same balance and sequence number, or
/// there is a hash collision.
pub fn one_proof()
    ensures { OneProof }
{}

/// Feeds whose link lines `check-chain` finds good are a chain, or there is a hash collision.
pub fn digests_suffice()
    ensures { DigestsSuffice }
{}

/// The link of every feed can be said in a line: its digests are 32 bytes, and its numbers fit.
pub fn links_fit()
    ensures { LinksFit }
{}

/// The closing digest of a link is that of the last line of its feed's report, and the opening digest that of the report
/// of the feed's first two frames alone.
pub fn links_are_of_reports()
    ensures { LinksAreOfReports }
{}

/// In a chain of feeds, as in a feed, of the places with one `from` and `seq` at most one has status 0, 5 or 6.
pub fn chains_count_once()
    ensures { ChainsCountOnce }
{}
