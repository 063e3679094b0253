//! The head of a picture's text.

ghost use Rattle.std.specs.Prelude.{◌≡◌, ◌++◌, OnOk, Some, string_bytes};
ghost use Rattle.bk_picture.specs.Svg.{head_line, head_text, heading_line, links_words, name_text, name_words, size_words, span_words, title_line};

use crate::fixed::{push_axes, push_desc, push_style};
use crate::links::Links;
use crate::picture::Picture;
use std::alloc::AllocError;
use std::fmt;
use std::fmt::Write;

// The line of the head, without its line feed.
#[derive(Clone, Copy)]
struct Head {
    count: u32,
    members: u8,
}

impl fmt::Display for Head {
    ghost output = { λ h. Some (head_line h.count h.members) };

    fn fmt<W: fmt::Write>(&self, f: &mut fmt::Formatter<W>) -> fmt::Result {
        let wide = 40 * u64::from(self.count.max(8)) + 60;
        let high = 28 * u64::from(self.members) + 222;
        let size = Size { wide, high };
        write!(
            f,
            "<svg xmlns='http://www.w3.org/2000/svg' version='1.1' role='img' {size}>"
        )
    }
}

#[derive(Clone, Copy)]
struct Size {
    wide: u64,
    high: u64,
}

impl fmt::Display for Size {
    ghost output = { λ s. Some (size_words s.wide s.high) };

    fn fmt<W: fmt::Write>(&self, f: &mut fmt::Formatter<W>) -> fmt::Result {
        let Size { wide, high } = *self;
        write!(
            f,
            "viewBox='0 0 {wide} {high}' width='{wide}' height='{high}'"
        )
    }
}

// Which rounds are drawn.
#[derive(Clone, Copy)]
struct Span {
    from: u32,
    count: u32,
}

impl fmt::Display for Span {
    ghost output = { λ s. Some (span_words s.from s.count) };

    fn fmt<W: fmt::Write>(&self, f: &mut fmt::Formatter<W>) -> fmt::Result {
        let Span { from, count } = *self;
        if count == 0 {
            write!(f, "no rounds from {from} on")
        } else {
            let to = u64::from(from) + u64::from(count) - 1;
            write!(f, "rounds {from} to {to}")
        }
    }
}

// That lines are left out, and which are not.
#[derive(Clone, Copy)]
struct LinksNote {
    links: Links,
}

impl fmt::Display for LinksNote {
    ghost output = { λ n. Some (links_words n.links) };

    fn fmt<W: fmt::Write>(&self, f: &mut fmt::Formatter<W>) -> fmt::Result {
        match self.links {
            Links::All => Ok(()),
            Links::Votes => write!(f, ", votes alone"),
            Links::Hidden => write!(f, ", no lines"),
        }
    }
}

// The name of a picture.
#[derive(Clone, Copy)]
struct Name {
    span: Span,
    last: u32,
    members: u8,
    note: LinksNote,
}

impl fmt::Display for Name {
    ghost output = { λ n. Some (name_words n.span.from n.span.count n.last n.members n.note.links) };

    fn fmt<W: fmt::Write>(&self, f: &mut fmt::Formatter<W>) -> fmt::Result {
        let Name {
            span,
            last,
            members,
            note,
        } = *self;
        write!(f, "{span} of {last}, {members} members{note}")
    }
}

// Begins with the size.
fn push_size(text: &mut String, count: u32, members: u8) -> Result<(), AllocError>
    ensures { OnOk result (string_bytes text.new ≡ string_bytes text.old ++ head_line count members) }
{
    let head = Head { count, members };
    write!(text, "{head}")?;
    Ok(())
}

// Adds the title.
fn push_name(text: &mut String, name: Name) -> Result<(), AllocError>
    ensures { OnOk result (string_bytes text.new ≡ string_bytes text.old
        ++ title_line (name_words name.span.from name.span.count name.last name.members name.note.links)) }
{
    write!(text, "\n<title>{name}</title>\n")?;
    Ok(())
}

// Adds the heading.
fn push_heading(text: &mut String, name: Name) -> Result<(), AllocError>
    ensures { OnOk result (string_bytes text.new ≡ string_bytes text.old
        ++ heading_line (name_words name.span.from name.span.count name.last name.members name.note.links)) }
{
    write!(text, "<text class='h' x='16' y='20'>{name}</text>\n")?;
    Ok(())
}

// Adds what has the name in it, and all between.
fn push_names(text: &mut String, name: Name) -> Result<(), AllocError>
    ensures { OnOk result (string_bytes text.new ≡ string_bytes text.old
        ++ name_text (name_words name.span.from name.span.count name.last name.members name.note.links)) }
{
    push_name(text, name)?;
    push_desc(text)?;
    push_style(text)?;
    push_heading(text, name)?;
    push_axes(text)?;
    Ok(())
}

/// Adds all that stands before the lines and the circles.
pub(crate) fn push_head(text: &mut String, picture: &Picture) -> Result<(), AllocError>
    ensures { OnOk result (string_bytes text.new ≡ string_bytes text.old ++ head_text picture.now) }
{
    let Picture {
        from,
        count,
        last,
        members,
        links,
        ..
    } = *picture;
    push_size(text, count, members)?;
    let span = Span { from, count };
    push_names(
        text,
        Name {
            span,
            last,
            members,
            note: LinksNote { links },
        },
    )?;
    Ok(())
}
