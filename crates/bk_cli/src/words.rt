//! The words of a command line, as they are read.

ghost use Rattle.std.specs.Prelude.{◌≡◌, ◌≤◌, ◌++◌, length, map, IfOk, OnOk};
ghost use Rattle.bk_cli.specs.Words.{helped, is_common, lead, named_first, settled};

use std::alloc::{AllocError, Global};
use std::convert::AsStr;

// Whether every command has this option.
fn is_common(word: &str) -> bool
    ensures { result ≡ is_common word.now }
{
    word == "--progress" || word == "--verbose"
}

// How many such options words begin with.
fn lead_of<S: AsStr>(words: &[S]) -> usize
    ensures lead { result ≡ lead (map S.text words.now) }
    ensures most { result ≤ length words.now }
{
    for at in 0..words.len() {
        if !is_common(words[at].as_str()) {
            return at;
        }
    }
    words.len()
}

// Puts words at the end of a list.
fn push_words<'a, S: AsStr>(list: &mut Vec<&'a str>, words: &'a [S]) -> Result<(), AllocError>
    ensures { OnOk result (map (λ w. w.now) list.new.items
        ≡ map (λ w. w.now) list.old.items ++ map S.text words.now) }
{
    for word in words {
        list.push(word.as_str())?;
    }
    Ok(())
}

// The words with the options that every command has behind its name.
fn name_first<'a, S: AsStr>(alloc: Global, words: &'a [S]) -> Result<Vec<&'a str>, AllocError>
    ensures { IfOk result (λ v. map (λ w. w.now) v.items ≡ named_first (map S.text words.now)) }
{
    let (options, rest) = words.split_at(lead_of(words));
    let mut list = Vec::with_capacity(alloc, words.len())?;
    match rest.split_first() {
        Some((name, more)) => {
            list.push(name.as_str())?;
            push_words(&mut list, options)?;
            push_words(&mut list, more)?;
        }
        None => push_words(&mut list, options)?,
    }
    Ok(list)
}

// The words with `--help` behind the name of a command in place of `help` in front of it.
fn ask_help<'a>(alloc: Global, words: Vec<&'a str>) -> Result<Vec<&'a str>, AllocError>
    ensures { IfOk result (λ v. map (λ w. w.now) v.items ≡ helped (map (λ w. w.now) words.entry.items)) }
{
    if words.is_empty() || words[0] != "help" {
        return Ok(words);
    }
    let rest = words.len().min(2);
    let mut list = Vec::with_capacity(alloc, words.len() + 1)?;
    list.extend_from_slice(&words[1..rest])?;
    list.push("--help")?;
    list.extend_from_slice(&words[rest..])?;
    Ok(list)
}

/// The words of a command line, as they are read.
pub(crate) fn settle<'a, S: AsStr>(
    alloc: Global,
    words: &'a [S],
) -> Result<Vec<&'a str>, AllocError>
    ensures { IfOk result (λ v. map (λ w. w.now) v.items ≡ settled (map S.text words.now)) }
{
    let mut list = Vec::with_capacity(alloc, words.len())?;
    let Some((program, rest)) = words.split_first() else {
        return Ok(list);
    };
    let named = name_first(alloc, rest)?;
    let asked = ask_help(alloc, named)?;
    list.push(program.as_str())?;
    list.extend_from_slice(asked.as_slice())?;
    Ok(list)
}
