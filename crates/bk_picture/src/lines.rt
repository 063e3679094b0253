//! The lines of a picture to the parents of certificates.

ghost use Rattle.std.specs.Prelude.{◌≡◌, ◌<◌, ◌++◌, OnOk, string_bytes};
ghost use Rattle.std.specs.List.{flat_map};
ghost use Rattle.bk_picture.specs.Svg.{lines_text, links_text, parents_head, parents_path, parents_text, segment_if, segment_text, vote_text, votes_head, votes_path};

use crate::links::Links;
use crate::picture::{Cell, Column};
use crate::words::{height_of, left_of};
use itoa::Buffer;
use std::alloc::AllocError;
use std::fmt::Write;

// Adds the line from a member's circle to that of a parent.
fn push_segment(text: &mut String, member: u8, parent: u8) -> Result<(), AllocError>
    ensures { OnOk result (string_bytes text.new
        ≡ string_bytes text.old ++ segment_text member parent) }
{
    text.push_str("M0 ")?;
    text.push_str(Buffer::new().format(height_of(member)))?;
    text.push_str("L-40 ")?;
    text.push_str(Buffer::new().format(height_of(parent)))?;
    Ok(())
}

// Adds it, if the parent is one.
fn push_parent(text: &mut String, cell: &Cell, parent: u8) -> Result<(), AllocError>
    requires { parent < 128 }
    ensures { OnOk result (string_bytes text.new
        ≡ string_bytes text.old ++ segment_if cell.now.member cell.now.parents parent) }
{
    if cell.parents.has(parent) {
        push_segment(text, cell.member, parent)?;
    }
    Ok(())
}

// Adds the lines to all parents of a cell.
fn push_parents(text: &mut String, cell: &Cell) -> Result<(), AllocError>
    ensures { OnOk result (string_bytes text.new ≡ string_bytes text.old ++ parents_text cell.now) }
{
    for parent in 0..128 {
        push_parent(text, cell, parent)?;
    }
    Ok(())
}

// Adds the line to the parent that a cell votes for.
fn push_vote(text: &mut String, cell: &Cell) -> Result<(), AllocError>
    ensures { OnOk result (string_bytes text.new ≡ string_bytes text.old ++ vote_text cell.now) }
{
    match cell.vote {
        Some(parent) => push_segment(text, cell.member, parent),
        None => Ok(()),
    }
}

// Adds the lines to all parents of a column.
fn push_all_parents(text: &mut String, cells: &[Cell]) -> Result<(), AllocError>
    ensures { OnOk result (string_bytes text.new
        ≡ string_bytes text.old ++ flat_map parents_text cells.now) }
{
    for cell in cells {
        push_parents(text, cell)?;
    }
    Ok(())
}

// Adds the lines of all its votes.
fn push_votes(text: &mut String, cells: &[Cell]) -> Result<(), AllocError>
    ensures { OnOk result (string_bytes text.new
        ≡ string_bytes text.old ++ flat_map vote_text cells.now) }
{
    for cell in cells {
        push_vote(text, cell)?;
    }
    Ok(())
}

// Begins the path of the lines to all parents.
fn push_parents_head(text: &mut String, x: u64) -> Result<(), AllocError>
    ensures { OnOk result (string_bytes text.new ≡ string_bytes text.old ++ parents_head x) }
{
    write!(text, "<path class='l' transform='translate({x})' d='")?;
    Ok(())
}

// Begins that of the votes, with these classes.
fn push_votes_head(text: &mut String, classes: &str, x: u64) -> Result<(), AllocError>
    ensures { OnOk result (string_bytes text.new
        ≡ string_bytes text.old ++ votes_head classes.now x) }
{
    write!(
        text,
        "<path class='{classes}' transform='translate({x})' d='"
    )?;
    Ok(())
}

// Adds the path of the lines to all parents.
fn push_parents_path(text: &mut String, x: u64, cells: &[Cell]) -> Result<(), AllocError>
    ensures { OnOk result (string_bytes text.new
        ≡ string_bytes text.old ++ parents_path x cells.now) }
{
    push_parents_head(text, x)?;
    push_all_parents(text, cells)?;
    text.push_str("'/>\n")?;
    Ok(())
}

// Adds that of the votes, with these classes.
fn push_votes_path(
    text: &mut String,
    classes: &str,
    x: u64,
    cells: &[Cell],
) -> Result<(), AllocError>
    ensures { OnOk result (string_bytes text.new
        ≡ string_bytes text.old ++ votes_path classes.now x cells.now) }
{
    push_votes_head(text, classes, x)?;
    push_votes(text, cells)?;
    text.push_str("'/>\n")?;
    Ok(())
}

// Adds the paths of the lines that are drawn.
fn push_lines(text: &mut String, links: Links, x: u64, cells: &[Cell]) -> Result<(), AllocError>
    ensures { OnOk result (string_bytes text.new
        ≡ string_bytes text.old ++ lines_text links x cells.now) }
{
    match links {
        Links::All => {
            push_parents_path(text, x, cells)?;
            push_votes_path(text, "v", x, cells)
        }
        Links::Votes => push_votes_path(text, "v t", x, cells),
        Links::Hidden => Ok(()),
    }
}

// Adds the lines of a column.
fn push_links(text: &mut String, links: Links, from: u32, column: &Column) -> Result<(), AllocError>
    ensures { OnOk result (string_bytes text.new
        ≡ string_bytes text.old ++ links_text links from column.now) }
{
    let x = left_of(from, column.round);
    push_lines(text, links, x, &column.cells)
}

/// Adds those of all columns.
pub(crate) fn push_all_links(
    text: &mut String,
    links: Links,
    from: u32,
    columns: &[Column],
) -> Result<(), AllocError>
    ensures { OnOk result (string_bytes text.new
        ≡ string_bytes text.old ++ flat_map (links_text links from) columns.now) }
{
    for column in columns {
        push_links(text, links, from, column)?;
    }
    Ok(())
}
