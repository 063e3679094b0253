//! What `--help` shows.

/// The help of a command: what it is for in one line, and what is below its arguments.
#[derive(Clone, Copy)]
pub(crate) struct Help<'a> {
    pub(crate) about: &'a str,
    pub(crate) after: &'a str,
}

pub(crate) const FILE: &str =
    "The path of the file; standard input by default, and for a path that is `-`";

pub(crate) const WORKERS: &str =
    "How many threads execute at most, 1 to 64; 1 by default. The output is the same for any number";

pub(crate) const PROGRESS: &str =
    "Show on standard error how many bytes are read, and how many transactions are executed";

pub(crate) const VERBOSE: &str =
    "Say in one more line what a fault is, in words, and name the file; `order`, `anchors`, `account`, `statement`, `receipt`, `prove`, `check-state` and `compare` also name a missing batch, and `frames` whose tag is wrong";

pub(crate) const FROM: &str = "The first round that is drawn, 1 to 1,000,000; 1 by default";

pub(crate) const ROUNDS: &str = "How many rounds are drawn, 1 to 1,000; 40 by default";

pub(crate) const LINKS: &str =
    "Which lines to parents are drawn; without it all up to 16 members, and votes above";

pub(crate) const EVENT_WORKERS: &str =
    "The number of workers in the list of events, 1 to 64; 2 by default. The first is worker 0";

pub(crate) const ID: &str = "The id of the account, a number below 2^64";

pub(crate) const PLACE: &str =
    "The place of the transaction, a number below 2^32; the first has place 0";

pub(crate) const ROOT: &str =
    "The digest of a state, 64 lower-case hexadecimal digits, as the line `state` of a report has it";

pub(crate) const REPORT: &str = "The path of the file that is said to be the report of the feed";

pub(crate) const FEED: &str = "The path of the feed";

pub(crate) const EVENTS: &str = "The path of the list of events";

pub(crate) const FEED1: &str = "The path of the feed that is read first";

pub(crate) const FEED2: &str = "The path of the other feed";

pub(crate) const PROGRAM: Help<'static> = Help {
    about: "Replays a ledger from the bytes of a feed",
    after: "\
Output goes to standard output. A fault is one line on standard error.

Exit status:
  0  the whole output is written
  1  the command line is wrong, what was asked for is absent, the proof or the digest is bad, the report differs, the
     chain is broken, or `waiting` or `evidence` writes a line
  2  a feed, the script, a list or the links are wrong, or two feeds differ in version, committee or opening accounts
  3  a feed, or two together, are stopped by a collision or an equivocation
  4  a read, a write or memory failed, or a worker did not finish
  5  the whole output of `run`, `summary`, `statement`, `transactions`, `postings`, `batches`, `check-state`,
     `check-report` or `link` is written, and the order stops at a missing batch; or `missing` writes a line, or a chain
     is good and its last feed is short
  6  with `--strict`: the status would be 0, 1 or 5, and a feed does not count whole. The first of these that holds is
     one more line on standard error:
    strict: missing HEX      the order stops at this batch, which the feed lacks
    strict: rejected N       N frames of certificates break a rule
    strict: waiting N        N certificates wait
    strict: nothing ordered  no certificate is ordered

Codes:
  feed fault  1 the first bytes are not `BKF1` or `BKF2`, 2 cut short, 3 kind of frame, 4 length, 5 committee,
              6 opening accounts, 7 a second committee or list of accounts, 8 reading failed, 9 memory ran out
  RULE        0 malformed, 1 author, 2 round, 3 number of parents, 4 order of parents, 5 signer, 6 quorum, 7 tag
  STATUS      0 ok, 1 malformed, 2 undeclared account, 3 unknown account, 4 stale, 5 guard, 6 funds

Example:
  bkreplay run one_commit.feed",
};

pub(crate) const RUN: Help<'static> = Help {
    about: "Find the order that a feed's certificates commit, execute its batches, and write the report",
    after: "\
Reads a feed: the bytes `BKF1` or `BKF2`, then frames: the committee, the opening accounts, and then certificates and
batches in any order. Writes these lines to standard output, in this order:

  members N faulty F quorum Q     the committee
  frames K                        how many frames the feed has
  reject FRAME RULE               a certificate that breaks a rule
  waiting ROUND AUTHOR            a certificate that waits: its parents do not admit it
  anchor ROUND AUTHOR             a committed anchor
  cert ROUND AUTHOR               a certificate of the order
  batch INDEX COUNT               a batch of the order; `void` in place of COUNT if its payload is malformed
  missing HEX                     the batch that the feed lacks, where the order stops
  tx PLACE STATUS MOVED           an executed transaction
  account ID BALANCE SEQ          an account at the end
  money TOTAL                     all balances at the end
  state HEX                       the digest of all accounts at the end

RULE is 0 malformed, 1 author, 2 round, 3 number of parents, 4 order of parents, 5 signer, 6 quorum, 7 tag. STATUS is
0 ok, 1 malformed, 2 undeclared account, 3 unknown account, 4 stale, 5 guard, 6 funds.

Exit status:
  0  the whole report is written
  1  the command line is wrong
  2  feed fault CODE at OFFSET, CODE 1 to 7 (`bkreplay --help` names them): the bytes are not a feed
  3  collision ID, or equivocation ROUND AUTHOR ID ID: the feed is stopped
  4  feed fault 8 or 9, memory, read failed, write failed, or unfinished PLACE
  5  the whole report is written, and stops at a missing batch
  6  with `--strict`: the feed does not count whole, and one more line on standard error says why

Example:
  bkreplay run --workers 4 one_commit.feed",
};

pub(crate) const MAKE: Help<'static> = Help {
    about: "Write the feed that a script makes",
    after: "\
Reads a script: lines of at most 16,777,216 bytes in all, words separated by single spaces. Empty lines and
lines that begin with `#` are skipped. Writes the bytes of the feed to standard output.

  version V                       1 or 2, before `members`; 1 by default
  members N [WEIGHTS]             the committee; each member weighs 1, or in version 2 what the list says
  account ID BALANCE [SEQ]        an opening account
  batch NAME                      a batch of the transactions on the lines that follow:
    pay FROM TO AMOUNT SEQ
    payif FROM TO AMOUNT SEQ GUARD MIN
    sweep FROM TO KEEP SEQ
    split FROM SEQ TO AMOUNT ..
    raw HEX                       a transaction of these bytes; `raw -` is one of no bytes
  cert NAME ROUND AUTHOR BATCHES PARENTS SIGNERS
                                  a certificate; the items of a list are separated by `,`, and `-` is the empty list
  again NAME SIGNERS              the certificate of that name once more, signed by these members

Exit status:
  0  the whole feed is written
  1  the command line is wrong
  2  script fault CODE at line LINE. CODE is 1 for the words of the line, 2 for its place, 3 for a number, 4 for a name,
     5 for a range
  4  memory, read failed, or write failed

Example:
  bkreplay make one_commit.script | bkreplay run",
};

pub(crate) const ORDER: Help<'static> = Help {
    about: "Write the committed anchors and the certificates in order",
    after: "\
Reads a feed, as `run` does, and finds its order. Writes to standard output:

  anchor ROUND AUTHOR             a committed anchor, oldest first
  cert ROUND AUTHOR               a certificate of the order

Exit status:
  0  all lines are written
  1  the command line is wrong
  2  feed fault CODE at OFFSET, CODE 1 to 7 (`bkreplay --help` names them): the bytes are not a feed
  3  collision ID, or equivocation ROUND AUTHOR ID ID: the feed is stopped
  4  feed fault 8 or 9, memory, read failed, or write failed
  6  with `--strict`: the feed does not count whole, and one more line on standard error says why

Example:
  bkreplay order one_commit.feed",
};

pub(crate) const ACCOUNT: Help<'static> = Help {
    about: "Write one account as the order of a feed leaves it",
    after: "\
Reads a feed, as `run` does, and finds its order, up to the first missing batch. Writes to standard output:

  account ID BALANCE SEQ          the account at the end

Exit status:
  0  the line is written
  1  absent account ID: there is none; or the command line is wrong
  2  feed fault CODE at OFFSET, CODE 1 to 7 (`bkreplay --help` names them): the bytes are not a feed
  3  collision ID, or equivocation ROUND AUTHOR ID ID: the feed is stopped
  4  feed fault 8 or 9, memory, read failed, write failed, or unfinished PLACE
  6  with `--strict`: the feed does not count whole, and one more line on standard error says why

Example:
  bkreplay account 1 one_commit.feed",
};

pub(crate) const RECEIPT: Help<'static> = Help {
    about: "Write what became of the transaction at one place of the order",
    after: "\
Reads a feed, as `run` does, and finds its order, up to the first missing batch. Writes to standard output:

  tx PLACE STATUS MOVED           the executed transaction

STATUS is 0 ok, 1 malformed, 2 undeclared account, 3 unknown account, 4 stale, 5 guard, 6 funds.

Exit status:
  0  the line is written
  1  absent place PLACE: the order is shorter; or the command line is wrong
  2  feed fault CODE at OFFSET, CODE 1 to 7 (`bkreplay --help` names them): the bytes are not a feed
  3  collision ID, or equivocation ROUND AUTHOR ID ID: the feed is stopped
  4  feed fault 8 or 9, memory, read failed, write failed, or unfinished PLACE
  6  with `--strict`: the feed does not count whole, and one more line on standard error says why

Example:
  bkreplay receipt 0 one_commit.feed",
};

pub(crate) const PROVE: Help<'static> = Help {
    about: "Write a proof that one account is in the state at the end",
    after: "\
Reads a feed, as `run` does, and finds its order, up to the first missing batch. Writes the text that
`check-proof` reads to standard output:

  state HEX                       the digest of all accounts at the end
  size N                          how many accounts there are
  index I                         the index of the account among them
  account ID BALANCE SEQ          the account
  path HEX                        one line for each digest on the path from the account to the state

Exit status:
  0  the proof is written
  1  absent account ID: there is none; or the command line is wrong
  2  feed fault CODE at OFFSET, CODE 1 to 7 (`bkreplay --help` names them): the bytes are not a feed
  3  collision ID, or equivocation ROUND AUTHOR ID ID: the feed is stopped
  4  feed fault 8 or 9, memory, read failed, write failed, or unfinished PLACE
  6  with `--strict`: the feed does not count whole, and one more line on standard error says why

Example:
  bkreplay prove 1 one_commit.feed",
};

pub(crate) const FRAMES: Help<'static> = Help {
    about: "Write a line for each frame of a feed: what it holds, and which rule a certificate breaks",
    after: "\
Reads a feed and writes its frames in their order. I is the number of a frame, OFFSET the byte at which it begins:

  frame 0 at OFFSET committee HEX version V members N
  frame 1 at OFFSET genesis HEX accounts A money T
  frame I at OFFSET cert ID round R author M batches B parents P signers S good
  frame I at OFFSET cert ID round R author M batches B parents P signers S broken RULE
  frame I at OFFSET cert broken 0
  frame I at OFFSET batch HEX transactions N
  frame I at OFFSET batch HEX void

HEX is SHA-256 of the payload, and T the sum of the balances. B, P, S and N count what the bytes hold. RULE is the first
rule that the certificate breaks: 0 it is malformed, 1 author, 2 round, 3 number of parents, 4 order of parents, 5 signer,
6 quorum, 7 tag. If the feed has a fault, the lines of the whole frames before it are written.

Exit status:
  0  all lines are written
  1  the command line is wrong
  2  feed fault CODE at OFFSET, CODE 1 to 7 (`bkreplay --help` names them): the bytes are not a feed from there on
  4  feed fault 8 or 9, memory, read failed, or write failed
  6  with `--strict`: a certificate breaks a rule, and one more line on standard error says how many do

Example:
  bkreplay frames one_commit.feed",
};

pub(crate) const SUMMARY: Help<'static> = Help {
    about: "Write how much is in a feed, how much of it is ordered, and what became of the transactions",
    after: "\
Reads a feed, as `run` does, finds its order and executes its batches, up to the first missing one. Writes to standard
output:

  version V                       1 or 2
  committee HEX, genesis HEX      SHA-256 of the payloads of frame 0 and frame 1, a line for each
  members N faulty F quorum Q     of the committee; weights in version 2
  frames K                        all frames
  certificates C rejected R repeated P waiting W ordered O
                                  frames of certificates; those that break a rule; good ones whose id a good one had
                                  before; those that wait, not admitted; those in the order
  anchors A skipped S open X      odd rounds by what became of their anchors, as the command `anchors` says it
  batches B repeated P ordered O void V unordered U
                                  frames of batches; those whose digest came before; those of the order, of these the
                                  ones that are no batch; digests of batches that the order does not have
  missing HEX                     only where a batch is missing
  transactions M ok A malformed B undeclared C unknown D stale E guard F funds G
                                  executed transactions, and how many of them have each status
  accounts A money T              accounts at the end, and what they hold together
  state HEX                       the digest of the state

Exit status:
  0  all lines are written
  1  the command line is wrong
  2  feed fault CODE at OFFSET, CODE 1 to 7 (`bkreplay --help` names them): the bytes are not a feed
  3  collision ID, or equivocation ROUND AUTHOR ID ID: the feed is stopped
  4  feed fault 8 or 9, memory, read failed, write failed, or unfinished PLACE
  5  all lines are written, and the order stops at a missing batch
  6  with `--strict`: the feed does not count whole, and one more line on standard error says why

Example:
  bkreplay summary one_commit.feed",
};

pub(crate) const ANCHORS: Help<'static> = Help {
    about: "Write what became of the anchor of each odd round, with its votes",
    after: "\
Reads a feed, as `run` does, and finds its order. Writes a line for each odd round, up to the greatest round of an
admitted certificate:

  round R leader M votes V need N RESULT

M is the leader of the round, N the weight of votes that commits its certificate, and V the weight of the votes that it
has, `-` where the leader has no admitted certificate of this round. RESULT is one of

  voted                           committed by its votes
  linked                          committed, since it is in the history of a later committed anchor
  skipped                         not committed, while a later anchor is
  open                            not committed, and no later anchor is

Exit status:
  0  all lines are written
  1  the command line is wrong
  2  feed fault CODE at OFFSET, CODE 1 to 7 (`bkreplay --help` names them): the bytes are not a feed
  3  collision ID, or equivocation ROUND AUTHOR ID ID: the feed is stopped
  4  feed fault 8 or 9, memory, read failed, or write failed
  6  with `--strict`: the feed does not count whole, and one more line on standard error says why

Example:
  bkreplay anchors one_commit.feed",
};

pub(crate) const DAG: Help<'static> = Help {
    about: "Draw the certificates of some rounds and what became of them, as an SVG picture",
    after: "\
Reads a feed, as `run` does, and finds its order. Writes a picture of N rounds from round R on as SVG 1.1: a column for
each round and a row for each member. It ends at the last round of the feed, if that comes before. Its title says which
rounds it shows of how many, and if lines are left out.

  circle                          a certificate: full if it is in the order, empty if it is not, with a broken outline if
                                  it waits, not admitted; a browser shows its title, with its id, when the pointer is on
                                  it
  ring                            the place of the leader of an odd round, by what became of its anchor: thick if it is
                                  `voted`, in long dashes if `linked`, in dots if `skipped`, thin if `open`
  line                            from a certificate to a parent of the round before; thick if it is a vote for an anchor

Exit status:
  0  the picture is written
  1  the command line is wrong
  2  feed fault CODE at OFFSET, CODE 1 to 7 (`bkreplay --help` names them): the bytes are not a feed
  3  collision ID, or equivocation ROUND AUTHOR ID ID: the feed is stopped
  4  feed fault 8 or 9, memory, read failed, or write failed
  6  with `--strict`: the feed does not count whole, and one more line on standard error says why

Example:
  bkreplay dag --rounds 8 --links votes one_commit.feed",
};

pub(crate) const STATEMENT: Help<'static> = Help {
    about: "Write what the transactions of the order do to one account",
    after: "\
Reads a feed, as `run` does, finds its order and executes its batches, up to the first missing one. Writes to standard
output:

  opening ID BALANCE SEQ          the account at the start; `absent` in place of BALANCE and SEQ if there is none
  tx PLACE STATUS ROLE AMOUNT BALANCE SEQ
                                  a transaction of the account: ROLE is `out` if it is the sender, `in` if it receives,
                                  `guard` if its balance decides. AMOUNT is what it paid or got. BALANCE and SEQ are
                                  those after the transaction; `absent` in place of both if there is no account
  closing ID BALANCE SEQ          the account at the end; `absent` in place of BALANCE and SEQ if there is none

STATUS is 0 ok, 1 malformed, 2 undeclared account, 3 unknown account, 4 stale, 5 guard, 6 funds.

Exit status:
  0  all lines are written
  1  absent account ID: there is none at any time, and no transaction has it; or the command line is wrong
  2  feed fault CODE at OFFSET, CODE 1 to 7 (`bkreplay --help` names them): the bytes are not a feed
  3  collision ID, or equivocation ROUND AUTHOR ID ID: the feed is stopped
  4  feed fault 8 or 9, memory, read failed, write failed, or unfinished PLACE
  5  all lines are written, and the order stops at a missing batch
  6  with `--strict`: the feed does not count whole, and one more line on standard error says why

Example:
  bkreplay statement 1 one_commit.feed",
};
