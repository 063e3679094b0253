//! The command line, as `--help` shows it.

ghost use Rattle.std.specs.Prelude.{◌≡◌, false, IfOk, IfSome};
ghost use Rattle.std.specs.List.{fold};
ghost use Rattle.clap.specs.Words.{App, app_of};
ghost use Rattle.clap.specs.declared.builder.command.Command.TheViews.{out-Command};
ghost use Rattle.bk_cli.specs.Commands.{command_line, line_named, with_command, with_part};

use crate::parts::Part;
use crate::shaped::Shaped;
use crate::verb::{ALL, Verb};
use clap::Command;
use std::alloc::{AllocError, Global};

// The command with these arguments more.
fn with_parts<'a>(alloc: Global, line: Shaped<'a>, parts: &[Part]) -> Shaped<'a>
    ensures { (a : App) → IfSome line.entry (λ c. c ≡ a)
        → IfSome result (λ c. c ≡ fold with_part a parts.now) }
{
    let mut line = line;
    for part in parts {
        line = line.arg(part.arg(alloc));
    }
    line
}

// A command by this name, with its arguments.
fn line_named<'a>(alloc: Global, name: &'a str, verb: Verb) -> Shaped<'a>
    ensures { IfSome result (λ c. c ≡ line_named name.now verb) }
{
    let named = Shaped::new(alloc, name, verb.help());
    with_parts(alloc, with_parts(alloc, named, verb.parts()), verb.flags())
}

// The command line with a command more.
fn with_command<'a>(alloc: Global, line: Shaped<'a>, verb: Verb) -> Shaped<'a>
    ensures { (a : App) → IfSome line.entry (λ c. c ≡ a)
        → IfSome result (λ c. c ≡ with_command a verb) }
{
    let name: &'a str = verb.word();
    line.subcommand(line_named(alloc, name, verb))
}

// The program with all commands.
fn whole<'a>(alloc: Global) -> Shaped<'a>
    ensures { IfSome result (λ c. c ≡ command_line) }
{
    let mut line = Shaped::program(alloc);
    for verb in ALL {
        line = with_command(alloc, line, verb);
    }
    line
}

/// The command whose usage is shown where words of a command have no fault for the parser, and name no job.
pub(crate) fn command_of<'a>(alloc: Global, verb: Verb) -> Result<Command<'a>, AllocError> {
    let name = match verb {
        Verb::CheckState => "bkreplay check-state",
        Verb::Transactions => "bkreplay transactions",
        Verb::Postings => "bkreplay postings",
        _ => {
            return command(alloc);
        }
    };
    line_named(alloc, name, verb).into_command()
}

/// All commands.
pub(crate) fn command<'a>(alloc: Global) -> Result<Command<'a>, AllocError>
    ensures line { IfOk result (λ c. app_of c ≡ command_line) }
    ensures local { IfOk result (λ c. (out-Command c).has_globals ≡ false) }
{
    whole(alloc).into_command()
}
