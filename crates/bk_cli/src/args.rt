//! The values of the arguments that were found in the words.

ghost use Rattle.std.specs.Prelude.{◌≡◌, ◌≤◌, ◌^◌, option_map, string_bytes, codes, IfOk};
ghost use Rattle.clap.specs.Words.{one_text, first_value, found_of};
ghost use Rattle.bk_cli.specs.CommandLine.{AreArgs, IsChosenBy, IsDigestIn, IsGivenBy, IsNumberBy, IsTextIn, IsWindowIn};

use crate::links::links_in;
use crate::notes::{Notes, flag_in};
use crate::window::{MOST_FROM, MOST_ROUNDS, Window};
use bk_base::Workers;
use bk_digest::Digest32;
use clap::ArgMatches;
use std::alloc::{AllocError, Global};

/// The values of all arguments that a command can have. The parser has refused words without an argument that their
/// command requires, and numbers out of their range.
#[derive(Drop)]
pub(crate) struct Args {
    pub workers: Option<Workers>,
    pub id: u64,
    pub place: u32,
    pub account: Option<u64>,
    /// What is drawn; none where the value of `--links` is none of its words.
    pub window: Option<Window>,
    pub follow: bool,
    pub wait: bool,
    /// ROOT; none where it is no digest.
    pub digest: Option<Digest32>,
    pub file: Option<String>,
    pub accounts: Option<String>,
    pub root: String,
    pub report: String,
    pub feed: String,
    pub events: String,
    pub feed1: String,
    pub feed2: String,
    pub notes: Notes,
    pub strict: bool,
}

// The value of `--workers`, where it is given.
fn workers_in(found: &ArgMatches<'_>) -> Option<Workers>
    ensures { IsGivenBy 1 65 (one_text (found_of found.now) (codes "workers")) result }
{
    Workers::new(found.get_one::<u8>("workers")?)
}

// The value of ID.
fn id_in(found: &ArgMatches<'_>) -> u64
    ensures { IsNumberBy (2 ^ 64) (one_text (found_of found.now) (codes "ID")) result }
{
    found.get_one::<u64>("ID").unwrap_or(0)
}

// The value of PLACE.
fn place_in(found: &ArgMatches<'_>) -> u32
    ensures { IsNumberBy (2 ^ 32) (one_text (found_of found.now) (codes "PLACE")) result }
{
    found.get_one::<u32>("PLACE").unwrap_or(0)
}

// The value of `--account`, where it is given.
fn account_in(found: &ArgMatches<'_>) -> Option<u64>
    ensures { IsGivenBy 0 (2 ^ 64) (one_text (found_of found.now) (codes "account")) result }
{
    found.get_one::<u64>("account")
}

// The value of an option, a number from 1 to `most`, and the usual one where it is left out.
fn chosen_in(found: &ArgMatches<'_>, name: &str, most: u32, usual: u32) -> u32
    requires { (1 ≤ usual) × (usual ≤ most) }
    ensures value { IsChosenBy most usual (one_text (found_of found.now) name.now) result }
    ensures fit { (1 ≤ result) × (result ≤ most) }
{
    match found.get_one::<u32>(name) {
        Some(number) if number >= 1 && number <= most => number,
        Some(_) | None => usual,
    }
}

// The values of `--from`, `--rounds` and `--links`.
fn window_in(found: &ArgMatches<'_>) -> Option<Window>
    ensures { IsWindowIn (one_text (found_of found.now)) (first_value (found_of found.now)) result }
{
    let links = links_in(found)?;
    let from = chosen_in(found, "from", MOST_FROM, 1);
    let rounds = chosen_in(found, "rounds", MOST_ROUNDS, 40);
    Some(Window::new(from, rounds, links))
}

// The value of ROOT, where it is a digest.
fn digest_in(found: &ArgMatches<'_>) -> Option<Digest32>
    ensures { IsDigestIn (first_value (found_of found.now) (codes "ROOT")) result }
{
    let text = found.get_str("ROOT").unwrap_or("");
    Digest32::parse_hex(text.as_bytes())
}

// The value of an argument, where it is given.
fn file_in(alloc: Global, found: &ArgMatches<'_>, name: &str) -> Result<Option<String>, AllocError>
    ensures { IfOk result (λ text. first_value (found_of found.now) name.now ≡ option_map string_bytes text) }
{
    match found.get_str(name) {
        Some(text) => Ok(Some(String::from_str(alloc, text)?)),
        None => Ok(None),
    }
}

// The value of an argument that is required.
fn text_in(alloc: Global, found: &ArgMatches<'_>, name: &str) -> Result<String, AllocError>
    ensures { IfOk result (λ text. IsTextIn (first_value (found_of found.now) name.now) (string_bytes text)) }
{
    String::from_str(alloc, found.get_str(name).unwrap_or(""))
}

impl Args {
    /// The values that were found.
    pub(crate) fn found_in(alloc: Global, found: &ArgMatches<'_>) -> Result<Args, AllocError>
        ensures { IfOk result (AreArgs (one_text (found_of found.now)) (first_value (found_of found.now))) }
    {
        Ok(Args {
            workers: workers_in(found),
            id: id_in(found),
            place: place_in(found),
            account: account_in(found),
            window: window_in(found),
            follow: flag_in(found, "follow"),
            wait: flag_in(found, "wait"),
            digest: digest_in(found),
            notes: Notes {
                progress: flag_in(found, "progress"),
                verbose: flag_in(found, "verbose"),
            },
            strict: flag_in(found, "strict"),
            file: file_in(alloc, found, "FILE")?,
            accounts: file_in(alloc, found, "accounts")?,
            root: text_in(alloc, found, "ROOT")?,
            report: text_in(alloc, found, "REPORT")?,
            feed: text_in(alloc, found, "FEED")?,
            events: text_in(alloc, found, "EVENTS")?,
            feed1: text_in(alloc, found, "FEED1")?,
            feed2: text_in(alloc, found, "FEED2")?,
        })
    }
}
