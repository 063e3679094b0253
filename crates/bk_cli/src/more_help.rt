//! What `--help` shows of the commands that check something, that execute without an order, or that compare.

use crate::help::Help;

pub(crate) const CHECK_PROOF: Help<'static> = Help {
    about: "Check that a text proves an account of the state of this digest",
    after: "\
Reads a proof: these lines, at most 65,536 bytes in all. Writes `proof good` or `proof bad` to standard output.

  state HEX                       the digest of all accounts, which has to be ROOT
  size N                          how many accounts there are
  index I                         the index of the account among them
  account ID BALANCE SEQ          the account
  path HEX                        one line for each digest on the path from the account to the state

With `--account ID` the proof is bad too where it is one of another account.

Exit status:
  0  the proof is good
  1  the proof is bad, or the command line is wrong
  4  memory, read failed, or write failed

Example:
  bkreplay check-proof a0f73141eeeda4cb3f115f1ee0468dde8a3de31db5fd987f0eec1df811bce063 one_commit.proof",
};

pub(crate) const CHECK_STATE: Help<'static> = Help {
    about: "Check that a digest is that of the state at the end of a feed",
    after: "\
Reads a feed, as `run` does, finds its order and executes its batches, up to the first missing one. Writes to standard
output:

  state good                      the digest of all accounts at the end is ROOT
  state bad                       it is not; one line follows:
  state HEX                       the digest of all accounts at the end

Exit status:
  0  state good, and no batch of the order is missing
  1  state bad; or the command line is wrong, as where ROOT is not a digest
  2  feed fault CODE at OFFSET, CODE 1 to 7 (`bkreplay --help` names them): the bytes are not a feed
  3  collision ID, or equivocation ROUND AUTHOR ID ID: the feed is stopped
  4  feed fault 8 or 9, memory, read failed, write failed, or unfinished PLACE
  5  state good, and the order stops at a missing batch
  6  with `--strict`: the feed does not count whole, and one more line on standard error says why

Example:
  bkreplay check-state a0f73141eeeda4cb3f115f1ee0468dde8a3de31db5fd987f0eec1df811bce063 one_commit.feed",
};

pub(crate) const CHECK_REPORT: Help<'static> = Help {
    about: "Check that a file is the report of a feed",
    after: "\
Reads a feed and finds its report, as `run` does. Then reads REPORT, and writes to standard output:

  report good                     the bytes of REPORT are exactly those of the report
  report differs at line N        they are not, and N is the first line that differs; two lines follow:
  feed LINE                       the line of the report; `end` if the report ends there
  claimed LINE                    the line of REPORT: its first 200 bytes, `?` for each that is not printable; `end` if
                                  REPORT ends there

Exit status:
  0  report good, and no batch of the order is missing
  1  report differs; or the command line is wrong
  2  feed fault CODE at OFFSET, CODE 1 to 7 (`bkreplay --help` names them): the bytes are not a feed
  3  collision ID, or equivocation ROUND AUTHOR ID ID: the feed is stopped
  4  feed fault 8 or 9, memory, read failed, write failed, or unfinished PLACE
  5  report good, and the order stops at a missing batch
  6  with `--strict`: the feed does not count whole, and one more line on standard error says why

Example:
  bkreplay check-report one_commit.out one_commit.feed",
};

pub(crate) const APPLY: Help<'static> = Help {
    about: "Execute all batches of a feed, in feed order and on one thread, and write the apply report",
    after: "\
Reads a feed: the bytes `BKF1` or `BKF2`, then frames. Takes every batch, and reads no certificate. Writes
these lines to standard output, in this order:

  batch INDEX COUNT               a batch; `void` in place of COUNT if its payload is malformed
  tx PLACE STATUS MOVED           an executed transaction
  account ID BALANCE SEQ          an account at the end
  money TOTAL                     all balances at the end

STATUS is 0 ok, 1 malformed, 2 undeclared account, 3 unknown account, 4 stale, 5 guard, 6 funds.

Exit status:
  0  the whole report is written
  1  the command line is wrong
  2  feed fault CODE at OFFSET, CODE 1 to 7 (`bkreplay --help` names them): the bytes are not a feed
  4  feed fault 8 or 9, memory, read failed, or write failed

Example:
  bkreplay apply apply_two_payments.feed",
};

pub(crate) const SCHEDULE: Help<'static> = Help {
    about: "Execute all batches of a feed in the order of a list of worker events, and write the apply report",
    after: "\
Reads a list of events, and then a feed, as `apply` does. The list has at most 16,777,216 bytes. Empty lines and
lines that begin with `#` are skipped; each other line is an event of a worker:

  claim W P                       worker W takes the transaction at place P
  read W X                        worker W reads word X of the bank
  write W X                       worker W writes word X of the bank
  finish W                        worker W is done with its transaction

Of the accounts in ascending id, account A has its balance in word 2A and its sequence number in word 2A + 1; places and
accounts count from 0. A worker reads each word of the accounts that its transaction declares, writes each word of those
that it declares for writing, and finishes. Writes the lines of `apply` to standard output.

Exit status:
  0  the whole report is written
  1  the command line is wrong
  2  events fault at line LINE: the line is not an event
  2  feed fault CODE at OFFSET, CODE 1 to 7 (`bkreplay --help` names them): the bytes are not a feed
  2  event LINE refused CODE: 1 the place cannot be claimed, 2 the worker that claims has a transaction, or is none of
     the workers, 3 another event of a worker that has no transaction, or is none of them, 4 the word is not one of the
     transaction's, 5 the event comes out of turn
  4  feed fault 8 or 9, memory, read failed, write failed, or unfinished PLACE: after all events this transaction is not
     done

Example:
  bkreplay schedule --workers 1 apply_two_payments.feed two_payments.events",
};

pub(crate) const COMPARE: Help<'static> = Help {
    about: "Compare the orders of two feeds and what was executed by them",
    after: "\
Reads FEED1 and then FEED2, each as `run` does, and finds the order of each, up to the first missing batch. The feeds
agree if they have the same version, committee and opening accounts, and their frames together have no collision and no
two certificates of one member in one round. Then one order is a prefix of the other, and one list of receipts is a
prefix of the other. Writes to standard output:

  agree CERTS PLACES              how many certificates the shorter order has, and how many transactions

Exit status:
  0  the line is written: the feeds agree
  1  the command line is wrong
  2  feed fault CODE at OFFSET, with a code of 1 to 7: the bytes of FEED1, or of FEED2, are not a feed
  2  differ setup: the versions, the committees or the opening accounts differ
  3  collision ID, or equivocation ROUND AUTHOR ID ID: in one of the feeds, or between the two
  4  feed fault 8 or 9, memory, read failed, write failed, or unfinished PLACE
  6  with `--strict`: a feed does not count whole, and one more line on standard error says why

Example:
  bkreplay compare ahead.feed behind.feed",
};
