//! Scripts of one member with the accounts 1 and 2, and what comes of their feeds.

/// No certificate.
pub(crate) const NOTHING: &str = "members 1\naccount 1 100\naccount 2 50\n";

/// Round 2 votes for round 1, which names the payment.
pub(crate) const ONE_COMMIT: &str =
    "members 1\naccount 1 100\naccount 2 50\nbatch b\npay 1 2 30 0\ncert a 1 0 b - 0\ncert b 2 0 - a 0\n";

/// Round 2 votes for round 1, which names the first payment, and round 4 for round 3, which names the second.
pub(crate) const TWO_COMMITS: &str =
    "members 1\naccount 1 100\naccount 2 50\nbatch b\npay 1 2 30 0\nbatch c\npay 2 1 5 0\ncert a 1 0 b - 0\ncert b 2 0 - a 0\ncert c 3 0 c b 0\ncert d 4 0 - c 0\n";

/// The digest of its feed.
pub(crate) const TWO_COMMITS_DIGEST: &str =
    "a1828115b6fabfe5c2e52f3e14f5fce23505227710c7cebf3701dbe97d80d4bc";

/// Where its magic and its frames end: the committee, the genesis, two batches, and rounds 1 to 4.
pub(crate) const TWO_COMMITS_ENDS: [usize; 9] = [4, 42, 99, 160, 221, 314, 407, 532, 625];

// The lines after `frames` before a certificate is ordered.
const OPENED: &str =
    "account 1 100 0\naccount 2 50 0\nmoney 150\nstate 58adcc856b347f0dd4813ad33cdb8253d78a0cd40d3f41ac066bce24d28a8a5d\n";

/// Those after round 2.
pub(crate) const FIRST: &str =
    "anchor 1 0\ncert 1 0\nbatch 0 1\ntx 0 0 30\naccount 1 70 1\naccount 2 80 0\nmoney 150\nstate a0f73141eeeda4cb3f115f1ee0468dde8a3de31db5fd987f0eec1df811bce063\n";

/// Those after round 4.
pub(crate) const BOTH: &str =
    "anchor 1 0\nanchor 3 0\ncert 1 0\ncert 2 0\ncert 3 0\nbatch 0 1\nbatch 1 1\ntx 0 0 30\ntx 1 0 5\naccount 1 75 1\naccount 2 75 1\nmoney 150\nstate 022be66df27103e12e92d52bfa5c124456fa46e7cf01a5375d138634ee9954ad\n";

/// At which offsets there is a report, of how many frames, and its lines after `frames`.
pub(crate) const REPORTS: [(usize, u64, &str); 7] = [
    (99, 2, OPENED),
    (160, 3, OPENED),
    (221, 4, OPENED),
    (314, 5, OPENED),
    (407, 6, FIRST),
    (532, 7, FIRST),
    (625, 8, BOTH),
];

/// Each odd round has an anchor, which the round after it votes for.
pub(crate) const THREE_ROUNDS: &str =
    "members 1\naccount 1 100\naccount 2 50\nbatch b\npay 1 2 30 0\ncert a 1 0 b - 0\ncert b 2 0 - a 0\ncert c 3 0 - b 0\n";

/// One round more, which commits the anchor of round 3 too.
pub(crate) const FOUR_ROUNDS: &str =
    "members 1\naccount 1 100\naccount 2 50\nbatch b\npay 1 2 30 0\ncert a 1 0 b - 0\ncert b 2 0 - a 0\ncert c 3 0 - b 0\ncert d 4 0 - c 0\n";

/// Rounds 1 and 3 name one batch, whose payment is executed once.
pub(crate) const REPEATED: &str =
    "members 1\naccount 1 100\naccount 2 50\nbatch b\npay 1 2 30 0\ncert a 1 0 b - 0\ncert b 2 0 - a 0\ncert c 3 0 b b 0\ncert d 4 0 - c 0\n";

/// The lines of its report after `frames`.
pub(crate) const REPEATED_LINES: &str =
    "anchor 1 0\nanchor 3 0\ncert 1 0\ncert 2 0\ncert 3 0\nbatch 0 1\ntx 0 0 30\naccount 1 70 1\naccount 2 80 0\nmoney 150\nstate a0f73141eeeda4cb3f115f1ee0468dde8a3de31db5fd987f0eec1df811bce063\n";

/// The ids of two certificates of round 1, with the payment and without it, which were worked out by another program.
pub(crate) const ROUND_ONE_IDS: (&str, &str) = (
    "3a3c971d52e891f8d1a0ba6c70a85e8441563abdddabd5af38fc6d2c9341e350",
    "afb203aeddb54bba05c780118d206fa2d2a6dc339c542173499c03db2eb8b1c9",
);

/// The proof of account 2 by the accounts of the opening.
pub(crate) const PROOF_OPENED: &str =
    "state 58adcc856b347f0dd4813ad33cdb8253d78a0cd40d3f41ac066bce24d28a8a5d\nsize 2\nindex 1\naccount 2 50 0\npath 5b2d207a8426e99fad298132eb18de130e9a23498b86f98b5f1778476ede759d\n";

/// Its proof after the payment of 30.
pub(crate) const PROOF_PAID: &str =
    "state a0f73141eeeda4cb3f115f1ee0468dde8a3de31db5fd987f0eec1df811bce063\nsize 2\nindex 1\naccount 2 80 0\npath f093a6029918f49a04474a0923f5a6b557c6a332840ecb5dc8ea9172a15bde3b\n";
