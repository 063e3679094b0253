//! The words of a script: a line cut into words, and what a word says.

ghost use Rattle.std.specs.Prelude.{◌≡◌, map, IfOk, ◌==◌, ◌&&◌, ◌||◌, nat_lt, not, length, slice_index};
ghost use Rattle.std.specs.List.{list_all};
ghost use Rattle.bk_script.specs.Words.{pieces, are_filled, is_numeral, number_of, is_name, is_digit, is_letter, list_of, numbers_of, hex_of, digest_of};
ghost use Rattle.bk_digest.specs.Digest.{is_lower_hex};
ghost use Rattle.bk_script.specs.Answers.{Answers};

use crate::fault::{ScriptCode, Stop};
use bk_digest::Digest32;
use hex::{FromHex, FromHexError};
use std::alloc::{AllocError, Global};

/// The pieces of a text between separators: one more than it has separators. O(n).
pub fn pieces(alloc: Global, separator: u8, text: &[u8]) -> Result<Vec<&[u8]>, AllocError>
    ensures { IfOk result (λ found. map (λ p. p.now) found.items ≡ pieces separator text.now) }
{
    let mut found = Vec::new(alloc);
    let mut start = 0;
    for end in 0..text.len() {
        if text[end] == separator {
            found.push(&text[start..end])?;
            start = end + 1;
        }
    }
    found.push(&text[start..])?;
    Ok(found)
}

// Whether each byte is a decimal digit.
fn are_digits(word: &[u8]) -> bool
    ensures { result ≡ list_all is_digit word.now }
{
    word.iter().all(|c| *c >= b'0' && *c <= b'9')
}

// Whether it is one digit or more, with no leading zero but in `0` itself.
fn is_numeral_word(word: &[u8]) -> bool
    ensures { result ≡ is_numeral word.now }
{
    are_digits(word) && !word.is_empty() && (word.len() == 1 || word[0] != b'0')
}

/// The number that a word writes in decimal digits, below 2^64. A leading zero or a sign makes it
/// none.
#[tactic(auto, unfolding(crate::specs::Words::number_of))]
pub fn number(word: &[u8]) -> Result<u64, ScriptCode>
    ensures { result ≡ number_of word.now }
{
    if !is_numeral_word(word) {
        return Err(ScriptCode::Number);
    }
    let mut value: u64 = 0;
    for digit in word {
        let digit = u64::from(*digit - b'0');
        if value > (u64::MAX - digit) / 10 {
            return Err(ScriptCode::Number);
        }
        value = 10 * value + digit;
    }
    Ok(value)
}

// Whether each byte is a lower-case letter or a digit.
fn are_name_bytes(word: &[u8]) -> bool
    ensures { result ≡ list_all (λ c. is_letter c || is_digit c) word.now }
{
    word.iter()
        .all(|c| *c >= b'a' && *c <= b'z' || *c >= b'0' && *c <= b'9')
}

/// Whether a word is a name: a lower-case letter, and then at most 31 lower-case letters or digits.
#[tactic(auto, unfolding(crate::specs::Words::is_name))]
pub fn is_name(word: &[u8]) -> bool
    ensures { result ≡ is_name word.now }
{
    !word.is_empty()
        && word.len() <= 32
        && word[0] >= b'a'
        && word[0] <= b'z'
        && are_name_bytes(word)
}

/// Whether no item is empty.
pub(crate) fn are_filled(items: &[&[u8]]) -> bool
    ensures { result ≡ are_filled (map (λ p. p.now) items.now) }
{
    for item in items {
        if item.is_empty() {
            return false;
        }
    }
    true
}

/// The items of a list, joined by commas, none where the word is `-`. O(n).
#[tactic(auto, unfolding(crate::specs::Words::list_of))]
pub(crate) fn list(alloc: Global, word: &[u8]) -> Result<Vec<&[u8]>, Stop>
    ensures { Answers (λ items. map (λ p. p.now) items.items) result (list_of word.now) }
{
    if word == b"-".as_slice() {
        return Ok(Vec::new(alloc));
    }
    let items = pieces(alloc, b',', word)?;
    if !are_filled(&items) {
        return Err(Stop::Code(ScriptCode::Number));
    }
    Ok(items)
}

/// The numbers that words write.
pub(crate) fn numbers(alloc: Global, words: &[&[u8]]) -> Result<Vec<u64>, Stop>
    ensures { Answers (λ numbers. numbers.items) result (numbers_of (map (λ p. p.now) words.now)) }
{
    let mut numbers = Vec::new(alloc);
    for word in words {
        numbers.push(number(word)?)?;
    }
    Ok(numbers)
}

// Whether each byte is a hexadecimal digit in lower case.
fn are_lower_hex(word: &[u8]) -> bool
    ensures { result ≡ list_all is_lower_hex word.now }
{
    word.iter()
        .all(|c| *c >= b'0' && *c <= b'9' || *c >= b'a' && *c <= b'f')
}

/// The bytes that pairs of lower-case hexadecimal digits write, none where the word is `-`.
#[tactic(auto, unfolding(crate::specs::Words::hex_of))]
pub(crate) fn hex_bytes(alloc: Global, word: &[u8]) -> Result<Vec<u8>, Stop>
    ensures { Answers (λ bytes. bytes.items) result (hex_of word.now) }
{
    if word == b"-".as_slice() {
        return Ok(Vec::new(alloc));
    }
    if !are_lower_hex(word) {
        return Err(Stop::Code(ScriptCode::Number));
    }
    match hex::decode(alloc, word) {
        Ok(bytes) => Ok(bytes),
        Err(FromHexError::OutOfMemory) => Err(Stop::Memory),
        Err(_) => Err(Stop::Code(ScriptCode::Number)),
    }
}

/// The digest that a word of 64 lower-case hexadecimal digits writes.
#[tactic(auto, unfolding(crate::specs::Words::digest_of))]
pub(crate) fn digest(word: &[u8]) -> Option<Digest32>
    ensures { result ≡ digest_of word.now }
{
    if word.len() != 64 || !are_lower_hex(word) {
        return None;
    }
    match <[u8; 32] as FromHex>::from_hex(word) {
        Ok(bytes) => Some(Digest32::new(bytes)),
        Err(_) => None,
    }
}
