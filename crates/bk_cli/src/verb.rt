//! The commands: the word of each, its arguments and its help.

ghost use Rattle.std.specs.Prelude.{◌≡◌};
ghost use Rattle.bk_cli.specs.CommandLine.{IsOneOf, all_words};
ghost use Rattle.bk_cli.specs.Commands.{flags_of, parts_of, word_of};

use crate::help::{self, Help};
use crate::parts::Part;
use crate::{diagnosis_help, more_help, table_help};

/// The name of a command.
#[derive(Clone, Copy)]
pub(crate) enum Verb {
    Run,
    Make,
    Order,
    Account,
    Receipt,
    Prove,
    Frames,
    Summary,
    Anchors,
    Dag,
    Statement,
    Transactions,
    Postings,
    Batches,
    Waiting,
    Missing,
    Evidence,
    CheckProof,
    CheckState,
    CheckReport,
    Apply,
    Schedule,
    Compare,
    Link,
    CheckChain,
}

/// All commands, in the order in which a user meets them.
pub(crate) const ALL: [Verb; 25] = [
    Verb::Run,
    Verb::Make,
    Verb::Order,
    Verb::Account,
    Verb::Receipt,
    Verb::Prove,
    Verb::Frames,
    Verb::Summary,
    Verb::Anchors,
    Verb::Dag,
    Verb::Statement,
    Verb::Transactions,
    Verb::Postings,
    Verb::Batches,
    Verb::Waiting,
    Verb::Missing,
    Verb::Evidence,
    Verb::CheckProof,
    Verb::CheckState,
    Verb::CheckReport,
    Verb::Apply,
    Verb::Schedule,
    Verb::Compare,
    Verb::Link,
    Verb::CheckChain,
];

impl Verb {
    /// The word of the command.
    pub(crate) fn word(self) -> &'static str
        ensures { result.now ≡ word_of self }
    {
        match self {
            Verb::Run => "run",
            Verb::Make => "make",
            Verb::Order => "order",
            Verb::Account => "account",
            Verb::Receipt => "receipt",
            Verb::Prove => "prove",
            Verb::Frames => "frames",
            Verb::Summary => "summary",
            Verb::Anchors => "anchors",
            Verb::Dag => "dag",
            Verb::Statement => "statement",
            Verb::Transactions => "transactions",
            Verb::Postings => "postings",
            Verb::Batches => "batches",
            Verb::Waiting => "waiting",
            Verb::Missing => "missing",
            Verb::Evidence => "evidence",
            Verb::CheckProof => "check-proof",
            Verb::CheckState => "check-state",
            Verb::CheckReport => "check-report",
            Verb::Apply => "apply",
            Verb::Schedule => "schedule",
            Verb::Compare => "compare",
            Verb::Link => "link",
            Verb::CheckChain => "check-chain",
        }
    }

    /// Its arguments, before the options that many commands have.
    pub(crate) fn parts(self) -> &'static [Part]
        ensures { result.now ≡ parts_of self }
    {
        match self {
            Verb::Run | Verb::Summary | Verb::Link => &[Part::Workers, Part::File],
            Verb::Account | Verb::Prove => &[Part::Id, Part::File],
            Verb::Receipt => &[Part::Place, Part::File],
            Verb::Dag => &[Part::From, Part::Rounds, Part::Links, Part::File],
            Verb::Statement => &[Part::Workers, Part::Id, Part::File],
            Verb::Transactions | Verb::Postings => &[
                Part::Workers,
                Part::Accounts,
                Part::Follow,
                Part::Wait,
                Part::File,
            ],
            Verb::CheckProof => &[Part::Account, Part::Root, Part::File],
            Verb::CheckState => &[Part::Workers, Part::Root, Part::File],
            Verb::CheckReport => &[Part::Workers, Part::Report, Part::File],
            Verb::Schedule => &[Part::EventWorkers, Part::Feed, Part::Events],
            Verb::Compare => &[Part::Feed1, Part::Feed2],
            _ => &[Part::File],
        }
    }

    /// And these options: `--strict` has a command whose feed may fall short, and `--progress` one that reads a feed.
    pub(crate) fn flags(self) -> &'static [Part]
        ensures { result.now ≡ flags_of self }
    {
        match self {
            Verb::Make | Verb::CheckProof | Verb::CheckChain => &[Part::Verbose],
            Verb::Evidence | Verb::Apply | Verb::Schedule => &[Part::Progress, Part::Verbose],
            _ => &[Part::Strict, Part::Progress, Part::Verbose],
        }
    }

    /// Its help.
    pub(crate) fn help(self) -> Help<'static> {
        match self {
            Verb::Run => help::RUN,
            Verb::Make => help::MAKE,
            Verb::Order => help::ORDER,
            Verb::Account => help::ACCOUNT,
            Verb::Receipt => help::RECEIPT,
            Verb::Prove => help::PROVE,
            Verb::Frames => help::FRAMES,
            Verb::Summary => help::SUMMARY,
            Verb::Anchors => help::ANCHORS,
            Verb::Dag => help::DAG,
            Verb::Statement => help::STATEMENT,
            Verb::Transactions => table_help::TRANSACTIONS,
            Verb::Postings => table_help::POSTINGS,
            Verb::Batches => table_help::BATCHES,
            Verb::Waiting => diagnosis_help::WAITING,
            Verb::Missing => diagnosis_help::MISSING,
            Verb::Evidence => diagnosis_help::EVIDENCE,
            Verb::CheckProof => more_help::CHECK_PROOF,
            Verb::CheckState => more_help::CHECK_STATE,
            Verb::CheckReport => more_help::CHECK_REPORT,
            Verb::Apply => more_help::APPLY,
            Verb::Schedule => more_help::SCHEDULE,
            Verb::Compare => more_help::COMPARE,
            Verb::Link => table_help::LINK,
            Verb::CheckChain => table_help::CHECK_CHAIN,
        }
    }

    /// The command of this word, which is that of one.
    pub(crate) fn of(word: &str) -> Verb
        requires known { IsOneOf all_words word.now }
        ensures { word.now ≡ word_of result }
    {
        for verb in ALL {
            if verb.word() == word {
                return verb;
            }
        }
        unreachable!()
    }
}
