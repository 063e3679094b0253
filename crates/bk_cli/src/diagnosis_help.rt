//! What `--help` shows of the commands that say what is wrong with a feed.

use crate::help::Help;

pub(crate) const ACCOUNT: &str =
    "The id of an account: the proof is good only where its `account` line shows this id";

pub(crate) const STRICT: &str =
    "End with status 6, and say why in one more line, where the feed does not count whole: a batch of its order is missing, a certificate frame breaks a rule, a certificate waits, or nothing is ordered (`frames` looks at broken rules alone)";

pub(crate) const WAITING: Help<'static> = Help {
    about: "Write what keeps the certificates that wait from being admitted",
    after: "\
Reads a feed, as `run` does, and finds its order. Executes nothing. Writes to standard output, for each certificate that
waits, by its round and then its author:

  waiting ROUND AUTHOR ID          the certificate; one or more of these lines follow, by ascending HEX, the parent's id:
  parent HEX absent                no certificate frame has this id
  parent HEX rejected FRAME RULE   a certificate has it that breaks a rule: the first is in FRAME, and breaks RULE first
  parent HEX waiting ROUND AUTHOR  the parent waits itself
  parent HEX round ROUND AUTHOR    the parent is admitted, but not of the round just before
  parents weigh W of Q             no parent keeps it: their authors weigh W together, and a quorum is Q

RULE is the number that `frames` and the `reject` lines of a report name.

Exit status:
  0  nothing waits, and nothing is written
  1  something waits; or the command line is wrong
  2  feed fault CODE at OFFSET, CODE 1 to 7 (`bkreplay --help` names them): the bytes are not a feed
  3  collision ID, or equivocation ROUND AUTHOR ID ID: the feed is stopped
  4  feed fault 8 or 9, memory, read failed, or write failed
  6  with `--strict`: the feed does not count whole, and one more line on standard error says why

Example:
  bkreplay waiting one_commit.feed",
};

pub(crate) const MISSING: Help<'static> = Help {
    about: "Write which batches the order names and the feed lacks",
    after: "\
Reads a feed, as `run` does, and finds its order. Executes nothing. Writes to standard output a line for each digest that
a certificate of the order names and that no batch frame has, in the order in which the certificates name them first:

  missing HEX ROUND AUTHOR        the digest, and the round and author of the first certificate that names it

The report of `run` names the first of these digests and no more.

Exit status:
  0  nothing is missing, and nothing is written
  1  the command line is wrong
  2  feed fault CODE at OFFSET, CODE 1 to 7 (`bkreplay --help` names them): the bytes are not a feed
  3  collision ID, or equivocation ROUND AUTHOR ID ID: the feed is stopped
  4  feed fault 8 or 9, memory, read failed, or write failed
  5  something is missing
  6  with `--strict`: the feed does not count whole, and one more line on standard error says why

Example:
  bkreplay missing one_commit.feed",
};

pub(crate) const EVIDENCE: Help<'static> = Help {
    about: "Write all collisions and all certificates that one member made for one round",
    after: "\
Reads a feed to its end, whether something stops it or not. Orders and executes nothing. Of the certificates that break no
rule, and of the batches, it writes to standard output:

  collision ID                     two headers have this id, or two payloads this digest; ascending, each once
  equivocation ROUND AUTHOR ID ID  a member made several certificates for one round, by round and then author: the least
                                   id with each of the others, ascending

The first line is what stops `run`; where nothing does, there is none.

Exit status:
  0  there is no evidence, and nothing is written
  1  there is some; or the command line is wrong
  2  feed fault CODE at OFFSET, CODE 1 to 7 (`bkreplay --help` names them): the bytes are not a feed
  4  feed fault 8 or 9, memory, read failed, or write failed

Example:
  bkreplay evidence one_commit.feed",
};
