//! What else is written to standard error.

ghost use Rattle.clap.specs.Words.{found_of, one_text};
ghost use Rattle.bk_cli.specs.CommandLine.{IsOn};

use clap::ArgMatches;

/// What is written to standard error besides the line of a fault.
#[derive(Clone, Copy, Debug, PartialEq, Eq)]
pub struct Notes {
    /// How far the job is, while it runs.
    pub progress: bool,
    /// What a fault is in words, and at which missing batch an order stops, with the name of the file.
    pub verbose: bool,
}

/// Whether an option without a value is given.
pub(crate) fn flag_in(found: &ArgMatches<'_>, name: &str) -> bool
    ensures { IsOn (one_text (found_of found.now) name.now) result }
{
    found.get_flag(name)
}
