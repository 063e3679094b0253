//! From the words of a command line to a job.

ghost use Rattle.std.specs.Prelude.{◌≡◌, ◌⊎◌, true, map, IfOk, IfErr, Some};
ghost use Rattle.clap.specs.Kinds.{FailsBy};
ghost use Rattle.clap.specs.Words.{fault_of, found_of, has_subcommand, kind_of, rows_of, subcommand_of, subcommand_rows_of, takes};
ghost use Rattle.bk_cli.specs.CommandLine.{IsLineFor, IsLineOf, IsOfValues, IsRefusal};
ghost use Rattle.bk_cli.specs.Commands.{command_line, word_of};
ghost use Rattle.bk_cli.specs.Words.{settled};

use crate::args::Args;
use crate::commands::{command, command_of};
use crate::job::{Job, sole};
use crate::making::job_of;
use crate::notes::Notes;
use crate::verb::Verb;
use crate::words::settle;
use clap::error::ErrorKind;
use clap::{ArgMatches, Error};
use std::alloc::{AllocError, Global};
use std::convert::AsStr;

/// What a command line says.
#[derive(Drop)]
pub struct Line {
    /// What the program is to do.
    pub job: Job,
    /// What it reports while it runs, and after a fault.
    pub notes: Notes,
    /// Whether a feed that does not count whole is turned down.
    pub strict: bool,
}

// The matches of the words; every command line that is whole names a command.
fn matches_of<'a, S: AsStr>(alloc: Global, words: &'a [S]) -> Result<ArgMatches<'a>, Error>
    ensures found { IfOk result (λ m. subcommand_rows_of m
        ≡ subcommand_of command_line (map S.text words.now)) }
    ensures named { IfOk result (λ m. has_subcommand m ≡ true) }
    ensures kinds { FailsBy (fault_of command_line (map S.text words.now)) result }
    ensures error { IfErr result (λ e. takes command_line (map S.text words.now) ≡ true
        → kind_of e ≡ ErrorKind.OutOfMemory) }
{
    command(alloc)?.try_get_matches_from(words)
}

// What is wrong with words of this command that name no job.
fn unfit(verb: Verb) -> &'static str {
    match verb {
        Verb::Transactions | Verb::Postings => {
            "--wait needs --follow and a FILE that is not standard input"
        }
        Verb::Dag => "the value of --links is not all, votes or none",
        _ => "ROOT is not a digest: 64 hexadecimal digits in lower case",
    }
}

// The error of words of this command that name no job.
fn no_job(alloc: Global, verb: Verb) -> Result<Error, AllocError>
    ensures { IfOk result (λ e. kind_of e ≡ ErrorKind.ValueValidation) }
{
    command_of(alloc, verb)?.error(ErrorKind::ValueValidation, unfit(verb))
}

// The error of standard input that is named twice.
fn input_twice(alloc: Global) -> Result<Error, AllocError>
    ensures { IfOk result (λ e. kind_of e ≡ ErrorKind.ValueValidation) }
{
    command(alloc)?.error(
        ErrorKind::ValueValidation,
        "standard input is named twice, by - or by a FILE that is left out",
    )
}

// The line of this command with the values of its arguments.
fn line_of(alloc: Global, verb: Verb, found: &ArgMatches<'_>) -> Result<Line, Error>
    ensures line { IfOk result (IsLineFor (Some (word_of verb, rows_of (found_of found.now)))) }
    ensures error { IfErr result (λ e. (kind_of e ≡ ErrorKind.OutOfMemory)
        ⊎ IsOfValues e (Some (word_of verb, rows_of (found_of found.now)))) }
{
    let args = Args::found_in(alloc, found)?;
    let (notes, strict) = (args.notes, args.strict);
    let Some(job) = job_of(verb, args) else {
        return Err(no_job(alloc, verb)?);
    };
    let Some(job) = sole(job) else {
        return Err(input_twice(alloc)?);
    };
    Ok(Line { job, notes, strict })
}

// Reads words whose first is the name of the program and whose second is that of a command.
fn parse_settled<'a, S: AsStr>(alloc: Global, words: &'a [S]) -> Result<Line, Error>
    ensures line { IfOk result (IsLineOf (map S.text words.now)) }
    ensures error { IfErr result (IsRefusal (map S.text words.now)) }
{
    let matches = matches_of(alloc, words)?;
    let Some((name, found)) = matches.subcommand() else {
        unreachable!()
    };
    line_of(alloc, Verb::of(name), found)
}

/// Reads the words of a command line; the first is the program's name.
///
/// The options that every command has may come before the command's name, and `help` is another spelling of `--help`.
///
/// An error is a fault of the words, a request for help or for the version, or that memory ran out; its kind says which.
/// Words without a fault give a job, and those with one an error of the fault's kind, unless memory ran out. A ROOT of
/// `check-state` that is not a digest, a value of `--links` that is none of its words, `--wait` without `--follow` or a
/// file, and standard input that is named twice, are faults of the kind `ValueValidation`.
pub fn parse_line<'a, S: AsStr>(alloc: Global, words: &'a [S]) -> Result<Line, Error>
    ensures line { IfOk result (IsLineOf (settled (map S.text words.now))) }
    ensures error { IfErr result (IsRefusal (settled (map S.text words.now))) }
{
    let words = settle(alloc, words)?;
    parse_settled(alloc, words.as_slice())
}
