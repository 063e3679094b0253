//! The arguments that commands have.

ghost use Rattle.std.specs.Prelude.{◌≡◌, pos};
ghost use Rattle.clap.specs.declared.builder.value_parser.ValueParser.TheVariants.{Signed};
ghost use Rattle.bk_cli.specs.Commands.{rule_of};

use crate::shaped::Plain;
use crate::{diagnosis_help, help, table_help};
use clap::builder::ValueParser;
use clap::value_parser;
use std::alloc::Global;

/// An argument of a command.
#[derive(Clone, Copy)]
pub(crate) enum Part {
    File,
    Workers,
    /// `--workers` of a list of events.
    EventWorkers,
    From,
    Rounds,
    Links,
    Accounts,
    Account,
    Id,
    Place,
    Root,
    Report,
    Feed,
    Events,
    Feed1,
    Feed2,
    Follow,
    Wait,
    Strict,
    Progress,
    Verbose,
}

// Reads a number from 1 to this one.
fn up_to<'a>(most: i64) -> ValueParser<'a>
    ensures { result ≡ Signed (pos 1) most }
{
    ValueParser::Signed(1, most)
}

impl Part {
    /// The argument, with its help.
    pub(crate) fn arg<'a>(self, alloc: Global) -> Plain<'a>
        ensures { result ≡ rule_of self }
    {
        match self {
            Part::File => Plain::valued(alloc, "FILE", help::FILE),
            Part::Workers => Plain::option(alloc, "workers", "W", help::WORKERS).read_by(up_to(64)),
            Part::EventWorkers => Plain::option(alloc, "workers", "W", help::EVENT_WORKERS).read_by(
                up_to(64),
            ),
            Part::From => Plain::option(alloc, "from", "R", help::FROM).read_by(up_to(1_000_000)),
            Part::Rounds => Plain::option(alloc, "rounds", "N", help::ROUNDS).read_by(up_to(1_000)),
            Part::Links => Plain::option(alloc, "links", "all|votes|none", help::LINKS),
            Part::Accounts => Plain::option(alloc, "accounts", "LIST", table_help::ACCOUNTS),
            Part::Account => Plain::option(alloc, "account", "ID", diagnosis_help::ACCOUNT).read_by(
                value_parser!(u64),
            ),
            Part::Id => Plain::required(alloc, "ID", help::ID).read_by(value_parser!(u64)),
            Part::Place => Plain::required(alloc, "PLACE", help::PLACE).read_by(value_parser!(u32)),
            Part::Root => Plain::required(alloc, "ROOT", help::ROOT),
            Part::Report => Plain::required(alloc, "REPORT", help::REPORT),
            Part::Feed => Plain::required(alloc, "FEED", help::FEED),
            Part::Events => Plain::required(alloc, "EVENTS", help::EVENTS),
            Part::Feed1 => Plain::required(alloc, "FEED1", help::FEED1),
            Part::Feed2 => Plain::required(alloc, "FEED2", help::FEED2),
            Part::Follow => Plain::flag(alloc, "follow", table_help::FOLLOW),
            Part::Wait => Plain::flag(alloc, "wait", table_help::WAIT),
            Part::Strict => Plain::flag(alloc, "strict", diagnosis_help::STRICT),
            Part::Progress => Plain::flag(alloc, "progress", help::PROGRESS),
            Part::Verbose => Plain::flag(alloc, "verbose", help::VERBOSE),
        }
    }
}
