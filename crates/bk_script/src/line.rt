//! The lines of a script: their words, and what kind each is of.

ghost use Rattle.std.specs.Prelude.{◌≡◌, ◌==◌, map, IfOk, IfSome, IsTrue, ◌<◌, ◌≤◌, ◌-◌, length, nat_lt};
ghost use Rattle.std.specs.List.{list_all};
ghost use Rattle.bk_script.specs.Lines.{is_skipped, is_ascii, keyword_of, takes, kind_of};
ghost use Rattle.bk_script.specs.private.Keywords.{in_batch_or_after, raw_or_certificate};

use crate::words::are_filled;
use bk_base::Version;

/// What a line of a script is of.
#[derive(Clone, Copy, Debug, PartialEq, Eq)]
pub enum Keyword {
    Version,
    Members,
    Account,
    Batch,
    Pay,
    PayIf,
    Sweep,
    Split,
    Raw,
    Cert,
    Again,
}

/// Whether a line is skipped: it is empty, or begins with `#`.
pub fn is_skipped(line: &[u8]) -> bool
    ensures { result ≡ is_skipped line.now }
{
    line.is_empty() || line[0] == b'#'
}

/// Whether each byte of a line is ASCII.
pub fn is_ascii(line: &[u8]) -> bool
    ensures { result ≡ is_ascii line.now }
{
    line.iter().all(|c| *c < 128)
}

/// The kind of line that a first word names.
#[tactic(auto, unfolding(crate::specs::Lines::keyword_of))]
pub fn keyword_named(word: &[u8]) -> Option<Keyword>
    ensures { result ≡ keyword_of word.now }
{
    if word == b"version".as_slice() {
        Some(Keyword::Version)
    } else if word == b"members".as_slice() {
        Some(Keyword::Members)
    } else if word == b"account".as_slice() {
        Some(Keyword::Account)
    } else if word == b"batch".as_slice() {
        Some(Keyword::Batch)
    } else {
        in_batch_or_after(word)
    }
}

// The same of a line in a batch, or of a certificate.
fn in_batch_or_after(word: &[u8]) -> Option<Keyword>
    ensures { result ≡ in_batch_or_after word.now }
{
    if word == b"pay".as_slice() {
        Some(Keyword::Pay)
    } else if word == b"payif".as_slice() {
        Some(Keyword::PayIf)
    } else if word == b"sweep".as_slice() {
        Some(Keyword::Sweep)
    } else if word == b"split".as_slice() {
        Some(Keyword::Split)
    } else {
        raw_or_certificate(word)
    }
}

// The same of a line of a raw text or of a certificate.
fn raw_or_certificate(word: &[u8]) -> Option<Keyword>
    ensures { result ≡ raw_or_certificate word.now }
{
    if word == b"raw".as_slice() {
        Some(Keyword::Raw)
    } else if word == b"cert".as_slice() {
        Some(Keyword::Cert)
    } else if word == b"again".as_slice() {
        Some(Keyword::Again)
    } else {
        None
    }
}

/// Whether a line of this kind may have this many words after the first.
pub fn takes(version: Version, keyword: Keyword, count: usize) -> bool
    ensures { result ≡ takes version keyword count }
{
    match keyword {
        Keyword::Version | Keyword::Batch | Keyword::Raw => count == 1,
        Keyword::Members => count == 1 || count == 2 && version == Version::Two,
        Keyword::Account => count == 2 || count == 3,
        Keyword::Pay | Keyword::Sweep => count == 4,
        Keyword::PayIf | Keyword::Cert => count == 6,
        Keyword::Split => count >= 4 && count <= 14 && count % 2 == 0,
        Keyword::Again => count == 2,
    }
}

/// The kind of a line of these words, where none is empty and their number is right.
#[tactic(auto, unfolding(crate::specs::Lines::kind_of))]
pub fn kind(version: Version, words: &[&[u8]]) -> Option<Keyword>
    ensures kind { result ≡ kind_of version (map (λ w. w.now) words.now) }
    ensures fits { IfSome result (λ found. (1 ≤ length words.now)
        × IsTrue (takes version found (length words.now - 1))) }
{
    let Some((first, more)) = words.split_first() else {
        return None;
    };
    if !are_filled(words) {
        return None;
    }
    let keyword = keyword_named(first)?;
    if takes(version, keyword, more.len()) {
        Some(keyword)
    } else {
        None
    }
}
