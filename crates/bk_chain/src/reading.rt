//! Texts of links, read.

ghost use Rattle.std.specs.Prelude.{◌≡◌, ◌+◌, ◌≤◌, ◌<◌, ◌^◌, All, length, IfOk, IfErr};
ghost use Rattle.std.specs.Str.{bytes_eq};
ghost use Rattle.bk_chain.specs.Line.{link_line};
ghost use Rattle.bk_chain.specs.Chain.{AreLinks};
ghost use Rattle.bk_chain.specs.private.Reading.{link_of};
ghost use Rattle.bk_chain.specs.private.Walking.{AreEnded, IsNoText, IsPushed, StopsInside};

use crate::fault::ChainFault;
use crate::line::push_link;
use crate::link::LinkValue;
use crate::words::link_in;
use bk_script::pieces;
use std::alloc::{AllocError, Global};

/// The most bytes that a text of links may have.
pub const MOST_LINKS: usize = 16_777_216;

// Whether this is the line of a link.
fn is_line_of(alloc: Global, link: &LinkValue, line: &[u8]) -> Result<bool, AllocError>
    ensures { IfOk result (λ same. same ≡ bytes_eq (link_line link.now) line.now) }
{
    let mut text = String::new(alloc);
    push_link(&mut text, link)?;
    Ok(text.as_bytes() == line)
}

// The link of a line without its line feed; `None` where it is not exactly the line that is written of one.
fn read_link(alloc: Global, line: &[u8]) -> Result<Option<LinkValue>, AllocError>
    ensures { IfOk result (λ found. found ≡ link_of line.now) }
{
    let words = pieces(alloc, b' ', line)?;
    let Some(link) = link_in(&words) else {
        return Ok(None);
    };
    if is_line_of(alloc, &link, line)? {
        Ok(Some(link))
    } else {
        Ok(None)
    }
}

// Takes the next line.
fn take_line(alloc: Global, links: &mut Vec<LinkValue>, line: &[u8]) -> Result<(), ChainFault>
    requires { length links.old.items < 2 ^ 31 }
    ensures { IsPushed result links.old.items links.new.items line.now }
{
    match read_link(alloc, line)? {
        Some(link) => links.push(link)?,
        None => {
            let line = links.len() as u32 + 1;
            return Err(ChainFault::Links { line });
        }
    }
    Ok(())
}

// Takes the lines that a line feed ends. Returns where the rest begins.
fn take_ended(alloc: Global, links: &mut Vec<LinkValue>, text: &[u8]) -> Result<usize, ChainFault>
    requires none { length links.old.items ≡ 0 }
    requires few { length text.now < 2 ^ 31 }
    ensures lines { IfOk result (λ end. AreEnded text.now links.new.items end) }
    ensures fault { IfErr result (StopsInside text.now) }
{
    let mut start = 0;
    for end in 0..text.len() {
        if text[end] == b'\n' {
            take_line(alloc, links, &text[start..end])?;
            start = end + 1;
        }
    }
    Ok(start)
}

/// The links of a text. Of a text of more than [`MOST_LINKS`] bytes, these and one byte more are enough.
pub(crate) fn links_of(alloc: Global, text: &[u8]) -> Result<Vec<LinkValue>, ChainFault>
    requires few { length text.now ≤ MOST_LINKS + 1 }
    ensures links { IfOk result (λ links. AreLinks text.now links.items) }
    ensures count { IfOk result (λ links. length links.items ≤ length text.now) }
    ensures fault { IfErr result (IsNoText text.now) }
{
    let mut links = Vec::new(alloc);
    let end = take_ended(alloc, &mut links, text)?;
    let last = &text[end..];
    let count = links.len() as u32;
    if last.is_empty() {
        if count == 0 {
            return Err(ChainFault::Links { line: 1 });
        }
        if text.len() > MOST_LINKS {
            return Err(ChainFault::Links { line: count });
        }
        return Ok(links);
    }
    if text.len() > MOST_LINKS {
        let line = count + 1;
        return Err(ChainFault::Links { line });
    }
    take_line(alloc, &mut links, last)?;
    Ok(links)
}
