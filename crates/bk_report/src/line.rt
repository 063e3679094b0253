use bk_certcheck::Rule;
use bk_digest::Digest32;
use bk_rules::Status;

/// One line of a report or of a proof, without the line feed that ends it. Numbers are decimal without leading zeros.
#[derive(Clone, Copy)]
pub enum Line {
    /// `members N faulty F quorum Q`: how many members there are, and the sizes of their committee.
    Members {
        members: u8,
        faulty: u64,
        quorum: u64,
    },
    /// `frames K`: how many frames the feed has.
    Frames {
        count: u64,
    },
    /// `reject FRAME RULE`: a frame of a certificate that breaks a rule.
    Reject {
        frame: u64,
        rule: Rule,
    },
    /// `waiting ROUND AUTHOR`: a held certificate that is not admitted.
    Waiting {
        round: u32,
        author: u8,
    },
    /// `anchor ROUND AUTHOR`: a committed anchor.
    Anchor {
        round: u32,
        author: u8,
    },
    /// `cert ROUND AUTHOR`: an ordered certificate.
    Cert {
        round: u32,
        author: u8,
    },
    /// `batch INDEX COUNT`: a batch, and how many transactions it holds.
    Batch {
        index: u32,
        count: u16,
    },
    /// `batch INDEX void`: a batch whose payload is no batch.
    VoidBatch {
        index: u32,
    },
    /// `missing HEX`: the digest of the first batch of the order that is not held.
    Missing {
        digest: Digest32,
    },
    /// `tx PLACE STATUS MOVED`: what became of the transaction at a place.
    Tx {
        place: u32,
        status: Status,
        moved: u64,
    },
    /// `account ID BALANCE SEQ`: an account at the end.
    Account {
        id: u64,
        balance: u64,
        seq: u64,
    },
    /// `money TOTAL`: all balances at the end, added up.
    Money {
        total: u64,
    },
    /// `state HEX`: the root of the tree of all accounts at the end.
    State {
        digest: Digest32,
    },
    /// `state good`: a claimed digest is that of the state.
    StateGood,
    /// `state bad`: it is not.
    StateBad,
    /// `size N`: how many accounts the tree of a proof has.
    Size {
        size: u64,
    },
    /// `index I`: where the account of a proof is in the tree, from 0.
    Index {
        index: u64,
    },
    /// `path HEX`: a digest beside the way from the account of a proof to the root.
    Path {
        digest: Digest32,
    },
}
