//! A command of which a contract knows its shape alone: its arguments and its subcommands.
//!
//! A function that owns a `Command` or an `Arg` owns each of its fields, and all of them are in every step of its proof. Of a
//! `Shaped` or a `Plain` it owns one value. No method fails: a `?` would be one more exit, at which all that is owned is dropped.
//! If memory runs out, the command is lost, and `into_command` reports it.

ghost use Rattle.std.specs.Prelude.{◌≡◌, false, IfOk, IfSome};
ghost use Rattle.clap.specs.Words.{App, Rule, app_of, new_app, with_rule, with_subcommand};
ghost use Rattle.clap.specs.declared.builder.command.Command.TheViews.{out-Command};
ghost use Rattle.bk_cli.specs.Commands.{flag_rule, option_rule, program, read_by, required_rule, valued_rule};

use crate::help::{self, Help};
use clap::builder::ValueParser;
use clap::{Arg, ArgAction, Command};
use std::alloc::{AllocError, Global};
use std::marker::Model;

/// An argument that is not global. Contracts see its rule.
#[derive(Drop)]
pub(crate) struct Plain<'a> {
    arg: Arg<'a>,
}

impl<'a> Model for Plain<'a> {
    ghost use Rattle.std.specs.Prelude.{◌≡◌, false};
    ghost use Rattle.clap.specs.Words.{Rule, rule_of};

    ghost Value = { Rule };

    ghost view = { λ p. rule_of p.arg };

    ghost invariant = { λ p. p.arg.global ≡ false };
}

impl<'a> Plain<'a> {
    /// An argument that takes a value.
    pub fn valued(alloc: Global, name: &'a str, text: &'a str) -> Plain<'a>
        ensures { result ≡ valued_rule name.now }
    {
        let arg = Arg::new(alloc, name).action(ArgAction::Set).help(text);
        Plain { arg }
    }

    /// The option `--name`, without a value.
    pub fn flag(alloc: Global, name: &'a str, text: &'a str) -> Plain<'a>
        ensures { result ≡ flag_rule name.now }
    {
        let arg = Arg::new(alloc, name)
            .long(name)
            .action(ArgAction::SetTrue)
            .help(text);
        Plain { arg }
    }

    /// The option `--name`, of which help calls the value by this letter.
    pub fn option(alloc: Global, name: &'a str, letter: &'a str, text: &'a str) -> Plain<'a>
        ensures { result ≡ option_rule name.now }
    {
        let arg = Arg::new(alloc, name)
            .long(name)
            .action(ArgAction::Set)
            .value_name(letter)
            .help(text);
        Plain { arg }
    }

    /// An argument that is required.
    pub fn required(alloc: Global, name: &'a str, text: &'a str) -> Plain<'a>
        ensures { result ≡ required_rule name.now }
    {
        let arg = Arg::new(alloc, name)
            .action(ArgAction::Set)
            .required(true)
            .help(text);
        Plain { arg }
    }

    /// The same with what its value has to be.
    pub fn read_by(self, parser: ValueParser<'a>) -> Plain<'a>
        ensures { result ≡ read_by parser.entry self.entry }
    {
        let arg = self.arg.value_parser(parser);
        Plain { arg }
    }
}

/// A command without a global argument, or none where memory ran out. Contracts see its shape.
#[derive(Drop)]
pub(crate) struct Shaped<'a> {
    command: Option<Command<'a>>,
}

impl<'a> Model for Shaped<'a> {
    ghost use Rattle.std.specs.Prelude.{◌≡◌, Option, option_map, unwrap_or, false};
    ghost use Rattle.clap.specs.Words.{App, app_of};
    ghost use Rattle.clap.specs.declared.builder.command.Command.TheViews.{out-Command};

    ghost Value = { Option App };

    ghost view = { λ s. option_map app_of s.command };

    ghost invariant = { λ s. unwrap_or (option_map (λ c. (out-Command c).has_globals) s.command) false
        ≡ false };
}

// A command of this name and help, without arguments.
fn named<'a>(alloc: Global, name: &'a str, text: Help<'a>) -> Command<'a>
    ensures shape { app_of result ≡ new_app name.now }
    ensures local { (out-Command result).has_globals ≡ false }
{
    Command::new(alloc, name)
        .about(text.about)
        .after_help(text.after)
}

impl<'a> Shaped<'a> {
    /// A command of this name and help, without arguments.
    pub fn new(alloc: Global, name: &'a str, text: Help<'a>) -> Shaped<'a>
        ensures { IfSome result (λ c. c ≡ new_app name.now) }
    {
        Shaped {
            command: Some(named(alloc, name, text)),
        }
    }

    /// The program without a command, which it has to be given.
    pub fn program(alloc: Global) -> Shaped<'a>
        ensures { IfSome result (λ c. c ≡ program) }
    {
        let command = named(alloc, "bkreplay", help::PROGRAM)
            .version("0.2.0")
            .disable_help_subcommand(true)
            .subcommand_required(true);
        Shaped {
            command: Some(command),
        }
    }

    /// The command with one argument more.
    pub fn arg(self, added: Plain<'a>) -> Shaped<'a>
        ensures { (a : App) (r : Rule) → IfSome self.entry (λ c. c ≡ a) → added.entry ≡ r
            → IfSome result (λ c. c ≡ with_rule a r) }
    {
        match self.command {
            Some(command) => Shaped {
                command: command.arg(added.arg).ok(),
            },
            None => Shaped { command: None },
        }
    }

    /// The command with one subcommand more.
    pub fn subcommand(self, added: Shaped<'a>) -> Shaped<'a>
        ensures { (a b : App) → IfSome self.entry (λ c. c ≡ a) → IfSome added.entry (λ c. c ≡ b)
            → IfSome result (λ c. c ≡ with_subcommand a b.top) }
    {
        match self.command.zip(added.command) {
            Some((command, added)) => Shaped {
                command: command.subcommand(added).ok(),
            },
            None => Shaped { command: None },
        }
    }

    /// The command itself.
    pub fn into_command(self) -> Result<Command<'a>, AllocError>
        ensures line { (a : App) → IfSome self.entry (λ c. c ≡ a)
            → IfOk result (λ r. app_of r ≡ a) }
        ensures local { IfOk result (λ r. (out-Command r).has_globals ≡ false) }
    {
        self.command.ok_or(AllocError)
    }
}
