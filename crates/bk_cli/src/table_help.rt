//! What `--help` shows of the commands that write tables, and of those that are about a chain of feeds.

use crate::help::Help;

pub(crate) const ACCOUNTS: &str =
    "The path of a list of accounts, an id on each line: only rows that have one of them are written";

pub(crate) const FOLLOW: &str =
    "Write each row as soon as no later frame can change it, while the feed comes; else all rows are written at its end";

pub(crate) const WAIT: &str =
    "With `--follow` and a FILE: at the end of the file, wait for more of it, without end";

pub(crate) const TRANSACTIONS: Help<'static> = Help {
    about: "Write the payments of the order's transactions as comma-separated values",
    after: "\
Reads a feed, as `run` does, finds its order and executes its batches, up to the first missing one. Writes to standard
output a header and then a row for each payment, by the place of its transaction:

  place,batch,item,kind,from,seq,to,amount,guard,min,keep,status,paid

PLACE and BATCH are the numbers of the `tx` and the `batch` line of the report, ITEM that of the payment in its
transaction. KIND is `pay`, `payif`, `sweep`, `split` or `malformed`. FROM, SEQ, TO, AMOUNT, GUARD, MIN and KEEP are what
the transaction says; a field that its kind does not have is empty. STATUS is that of the `tx` line: 0 ok, 1 malformed,
2 undeclared account, 3 unknown account, 4 stale, 5 guard, 6 funds. PAID is what the payment moved, 0 unless STATUS is 0.

With a list of accounts, only rows whose FROM, TO or GUARD is in the list are written. The list has an id on each line;
empty lines and lines that begin with `#` are skipped. It has at most 16,777,216 bytes, and is read before the feed.

With `--follow` the rows of what a piece of the feed commits are written before the next piece is read. A fault ends the
command at the piece that shows it; rows that are out stay out, and are right. With `--wait` too, the end of FILE is no
end: the program reads again every 100 ms until a signal or a fault ends it.

Exit status:
  0  all rows are written
  1  the command line is wrong
  2  accounts fault at line LINE: the line is not an id, or ends a list that is too long
  2  feed fault CODE at OFFSET, CODE 1 to 7 (`bkreplay --help` names them): the bytes are not a feed
  3  collision ID, or equivocation ROUND AUTHOR ID ID: the feed is stopped
  4  feed fault 8 or 9, memory, read failed, write failed, or unfinished PLACE
  5  all rows are written, and the order stops at a missing batch
  6  with `--strict`: the feed does not count whole, and one more line on standard error says why

Example:
  bkreplay transactions one_commit.feed",
};

pub(crate) const POSTINGS: Help<'static> = Help {
    about: "Write what each transaction of the order does to each of its accounts, as comma-separated values",
    after: "\
Reads a feed, as `run` does, finds its order and executes its batches, up to the first missing one. Writes to standard
output a header and then the rows of each transaction that is not malformed:

  place,status,account,role,amount,balance,seq

First the row of the sender, ROLE `out`; then one for each receiver by ascending id, `in`; then one for an account whose
balance decides and that is neither, `guard`. AMOUNT is what the account paid or got. BALANCE and SEQ are those of the
account after the transaction, both empty if there is no such account. STATUS is 0 ok, 2 undeclared account, 3 unknown
account, 4 stale, 5 guard, 6 funds.

With a list of accounts, only rows whose ACCOUNT is in the list are written. The list has an id on each line; empty lines
and lines that begin with `#` are skipped. It has at most 16,777,216 bytes, and is read before the feed.

With `--follow` the rows of what a piece of the feed commits are written before the next piece is read. A fault ends the
command at the piece that shows it; rows that are out stay out, and are right. With `--wait` too, the end of FILE is no
end: the program reads again every 100 ms until a signal or a fault ends it.

Exit status:
  0  all rows are written
  1  the command line is wrong
  2  accounts fault at line LINE: the line is not an id, or ends a list that is too long
  2  feed fault CODE at OFFSET, CODE 1 to 7 (`bkreplay --help` names them): the bytes are not a feed
  3  collision ID, or equivocation ROUND AUTHOR ID ID: the feed is stopped
  4  feed fault 8 or 9, memory, read failed, write failed, or unfinished PLACE
  5  all rows are written, and the order stops at a missing batch
  6  with `--strict`: the feed does not count whole, and one more line on standard error says why

Example:
  bkreplay postings one_commit.feed",
};

pub(crate) const BATCHES: Help<'static> = Help {
    about: "Write the batches of the order as comma-separated values",
    after: "\
Reads a feed, as `run` does, and finds its order. Executes nothing. Writes to standard output a header and then a row for
each batch of the order, up to the first missing one:

  batch,digest,round,author,anchor,transactions

BATCH is the number of the `batch` line of the report, DIGEST is SHA-256 of its payload. ROUND and AUTHOR are those of the
first certificate of the order that names it, ANCHOR is the round of the committed anchor with which that certificate was
ordered. TRANSACTIONS counts them; it is `void` if the payload is malformed.

Exit status:
  0  all rows are written
  1  the command line is wrong
  2  feed fault CODE at OFFSET, CODE 1 to 7 (`bkreplay --help` names them): the bytes are not a feed
  3  collision ID, or equivocation ROUND AUTHOR ID ID: the feed is stopped
  4  feed fault 8 or 9, memory, read failed, or write failed
  5  all rows are written, and the order stops at a missing batch
  6  with `--strict`: the feed does not count whole, and one more line on standard error says why

Example:
  bkreplay batches one_commit.feed",
};

pub(crate) const LINK: Help<'static> = Help {
    about: "Write the line by which a feed is shown to follow on another",
    after: "\
Reads a feed, as `run` does, finds its order and executes its batches, up to the first missing one. Writes one line to
standard output:

  link version V committee HEX opening HEX closing HEX accounts A money T transactions M END

The first HEX is SHA-256 of the committee frame's payload. OPENING is the digest of the opening accounts, CLOSING that of
the accounts at the end, as the `state` line of a report has it; A, T and M count the accounts and the money at the end
and the executed transactions. END is `whole`, or `short` if the order stops at a missing batch. `check-chain` reads such
lines.

Exit status:
  0  the line is written
  1  the command line is wrong
  2  feed fault CODE at OFFSET, CODE 1 to 7 (`bkreplay --help` names them): the bytes are not a feed
  3  collision ID, or equivocation ROUND AUTHOR ID ID: the feed is stopped
  4  feed fault 8 or 9, memory, read failed, write failed, or unfinished PLACE
  5  the line is written, and the order stops at a missing batch
  6  with `--strict`: the feed does not count whole, and one more line on standard error says why

Example:
  bkreplay link one_commit.feed",
};

pub(crate) const CHECK_CHAIN: Help<'static> = Help {
    about: "Check that feeds are one ledger, by their link lines",
    after: "\
Reads the lines that `link` writes, one for each feed in the order of the chain, at most 16,777,216 bytes in all. Feeds
are a chain if they have one version, only the last is short, and the opening accounts of each but the first are the
accounts at the end of the one before. Writes to standard output:

  chain good                      the lines link; four lines follow:
  feeds K                         how many lines there are
  opening HEX                     the opening accounts of the first feed
  closing HEX                     the accounts at the end of the last
  transactions M                  the executed transactions of all feeds

  chain broken at line N          line N does not follow on the one before; one line follows: `version`, `short` or
                                  `opening`, by what is wrong first

Exit status:
  0  chain good
  1  chain broken, or the command line is wrong
  2  links fault at line LINE: the line is not one that `link` writes, or ends a text that is too long
  4  memory, read failed, or write failed
  5  chain good, and the last feed is short

Example:
  bkreplay link one_commit.feed | bkreplay check-chain",
};
