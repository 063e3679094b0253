//! The line of a link.

ghost use Rattle.std.specs.Prelude.{◌≡◌, ◌++◌, OnOk, string_bytes};
ghost use Rattle.bk_chain.specs.Line.{count_words, digest_words, end_word, link_line, setup_words, version_words, work_words};

use crate::link::LinkValue;
use bk_base::Version;
use bk_results::Status;
use std::alloc::AllocError;
use std::fmt;

// Adds the version.
fn push_version(text: &mut String, version: Version) -> Result<(), AllocError>
    ensures { OnOk result (string_bytes text.new ≡ string_bytes text.old ++ version_words version) }
{
    match version {
        Version::One => text.push_str("link version 1"),
        Version::Two => text.push_str("link version 2"),
    }
}

// Adds the version and the digest of the committee.
fn push_setup(text: &mut String, link: &LinkValue) -> Result<(), AllocError>
    ensures { OnOk result (string_bytes text.new ≡ string_bytes text.old ++ setup_words link.now) }
{
    push_version(text, link.version)?;
    let committee = link.committee;
    write!(text, " committee {committee}")?;
    Ok(())
}

// Adds the digests of both states.
fn push_digests(text: &mut String, link: &LinkValue) -> Result<(), AllocError>
    ensures { OnOk result (string_bytes text.new ≡ string_bytes text.old ++ digest_words link.now) }
{
    let opening = link.opening;
    let closing = link.closing;
    write!(text, " opening {opening} closing {closing}")?;
    Ok(())
}

// Adds the accounts at the end and their money.
fn push_counts(text: &mut String, link: &LinkValue) -> Result<(), AllocError>
    ensures { OnOk result (string_bytes text.new ≡ string_bytes text.old ++ count_words link.now) }
{
    let accounts = link.accounts;
    let money = link.money;
    write!(text, " accounts {accounts} money {money}")?;
    Ok(())
}

// Adds how the order ends.
fn push_end(text: &mut String, end: Status) -> Result<(), AllocError>
    ensures { OnOk result (string_bytes text.new ≡ string_bytes text.old ++ end_word end) }
{
    match end {
        Status::Whole => text.push_str(" whole"),
        Status::Missing => text.push_str(" short"),
    }
}

// Adds the transactions and how the order ends.
fn push_work(text: &mut String, link: &LinkValue) -> Result<(), AllocError>
    ensures { OnOk result (string_bytes text.new ≡ string_bytes text.old ++ work_words link.now) }
{
    let transactions = link.transactions;
    write!(text, " transactions {transactions}")?;
    push_end(text, link.end)?;
    Ok(())
}

// Adds all but the transactions and how the order ends.
fn push_front(text: &mut String, link: &LinkValue) -> Result<(), AllocError>
    ensures { OnOk result (string_bytes text.new ≡ string_bytes text.old
        ++ (setup_words link.now ++ digest_words link.now ++ count_words link.now)) }
{
    push_setup(text, link)?;
    push_digests(text, link)?;
    push_counts(text, link)
}

/// Adds the line of a link, without a line feed.
pub fn push_link(text: &mut String, link: &LinkValue) -> Result<(), AllocError>
    ensures { OnOk result (string_bytes text.new ≡ string_bytes text.old ++ link_line link.now) }
{
    push_front(text, link)?;
    push_work(text, link)
}
