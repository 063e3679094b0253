//! The text of a picture.

ghost use Rattle.std.specs.Prelude.{◌≡◌, ◌++◌, OnOk, IfOk, string_bytes};
ghost use Rattle.std.specs.List.{flat_map};
ghost use Rattle.bk_views.specs.Anchors.{row_text};
ghost use Rattle.bk_picture.specs.Svg.{anchor_of, column_text, dot_head, key_head, label_text, line_signs, ring_head, round_text, title_words, dot_line, dot_text, head_text, key_text, members_text, rejected_line, ring_line, ring_text, svg_text};

use crate::fixed::{push_parent_sign, push_signs, push_thin_vote_sign, push_vote_sign};
use crate::head::push_head;
use crate::lines::push_all_links;
use crate::links::Links;
use crate::picture::{Cell, Circle, Class, Column, Picture};
use crate::words::{Note, Title, height_of, left_of};
use bk_views::{AnchorRow, AnchorState};
use std::alloc::{AllocError, Global};
use std::fmt::Write;

// The row of a member that leads its round.
fn note_of(ring: Option<AnchorRow>, member: u8) -> Option<AnchorRow>
    ensures { result ≡ anchor_of ring member }
{
    match ring {
        Some(row) if row.leader == member => Some(row),
        Some(_) | None => None,
    }
}

// Begins the circle of a certificate.
fn push_dot_head(text: &mut String, class: Class, y: u64) -> Result<(), AllocError>
    ensures { OnOk result (string_bytes text.new ≡ string_bytes text.old ++ dot_head class y) }
{
    write!(text, "<circle class='{class}' cy='{y}' r='6'><title>")?;
    Ok(())
}

// Adds its title.
fn push_title(
    text: &mut String,
    round: u32,
    member: u8,
    circle: Circle,
    anchor: Option<AnchorRow>,
) -> Result<(), AllocError>
    ensures { OnOk result (string_bytes text.new
        ≡ string_bytes text.old ++ title_words round member circle anchor) }
{
    let note = Note { anchor };
    let title = Title {
        round,
        member,
        circle,
        note,
    };
    write!(text, "{title}")?;
    Ok(())
}

// Adds the circle of a certificate.
fn push_circle(
    text: &mut String,
    round: u32,
    member: u8,
    circle: Circle,
    anchor: Option<AnchorRow>,
) -> Result<(), AllocError>
    ensures { OnOk result (string_bytes text.new
        ≡ string_bytes text.old ++ dot_line round member circle anchor) }
{
    let y = height_of(member);
    push_dot_head(text, circle.class, y)?;
    push_title(text, round, member, circle, anchor)?;
    text.push_str("</title></circle>\n")?;
    Ok(())
}

// Adds the circle of a cell, if it has one.
fn push_dot(
    text: &mut String,
    round: u32,
    ring: Option<AnchorRow>,
    cell: &Cell,
) -> Result<(), AllocError>
    ensures { OnOk result (string_bytes text.new
        ≡ string_bytes text.old ++ dot_text round ring cell.now) }
{
    match cell.circle {
        Some(circle) => {
            let anchor = note_of(ring, cell.member);
            push_circle(text, round, cell.member, circle, anchor)
        }
        None => Ok(()),
    }
}

// Adds the circles of all cells of a round.
fn push_dots(
    text: &mut String,
    round: u32,
    ring: Option<AnchorRow>,
    cells: &[Cell],
) -> Result<(), AllocError>
    ensures { OnOk result (string_bytes text.new
        ≡ string_bytes text.old ++ flat_map (dot_text round ring) cells.now) }
{
    for cell in cells {
        push_dot(text, round, ring, cell)?;
    }
    Ok(())
}

// Begins the ring of a row.
fn push_ring_head(text: &mut String, state: AnchorState, y: u64) -> Result<(), AllocError>
    ensures { OnOk result (string_bytes text.new ≡ string_bytes text.old ++ ring_head state y) }
{
    write!(text, "<circle class='{state}' cy='{y}' r='11'><title>")?;
    Ok(())
}

// Adds the line of a row.
fn push_line(text: &mut String, row: AnchorRow) -> Result<(), AllocError>
    ensures { OnOk result (string_bytes text.new ≡ string_bytes text.old ++ row_text row) }
{
    write!(text, "{row}")?;
    Ok(())
}

// Adds the ring of a row.
fn push_row(text: &mut String, row: AnchorRow) -> Result<(), AllocError>
    ensures { OnOk result (string_bytes text.new ≡ string_bytes text.old ++ ring_line row) }
{
    let y = height_of(row.leader);
    push_ring_head(text, row.state, y)?;
    push_line(text, row)?;
    text.push_str("</title></circle>\n")?;
    Ok(())
}

// Adds a ring, if there is one.
fn push_ring(text: &mut String, ring: Option<AnchorRow>) -> Result<(), AllocError>
    ensures { OnOk result (string_bytes text.new ≡ string_bytes text.old ++ ring_text ring) }
{
    match ring {
        Some(row) => push_row(text, row),
        None => Ok(()),
    }
}

// Begins a round, and adds its number.
fn push_round(text: &mut String, x: u64, round: u32) -> Result<(), AllocError>
    ensures { OnOk result (string_bytes text.new ≡ string_bytes text.old ++ round_text x round) }
{
    write!(
        text,
        "<g transform='translate({x})'>\n<text y='56'>{round}</text>\n"
    )?;
    Ok(())
}

// Adds the number of a round, its ring and its circles.
fn push_column(text: &mut String, from: u32, column: &Column) -> Result<(), AllocError>
    ensures { OnOk result (string_bytes text.new
        ≡ string_bytes text.old ++ column_text from column.now) }
{
    let round = column.round;
    let x = left_of(from, round);
    push_round(text, x, round)?;
    push_ring(text, column.ring)?;
    push_dots(text, round, column.ring, &column.cells)?;
    text.push_str("</g>\n")?;
    Ok(())
}

// Adds those of all rounds.
fn push_columns(text: &mut String, from: u32, columns: &[Column]) -> Result<(), AllocError>
    ensures { OnOk result (string_bytes text.new
        ≡ string_bytes text.old ++ flat_map (column_text from) columns.now) }
{
    for column in columns {
        push_column(text, from, column)?;
    }
    Ok(())
}

// Adds the number of a member.
fn push_label(text: &mut String, y: u64, member: u8) -> Result<(), AllocError>
    ensures { OnOk result (string_bytes text.new ≡ string_bytes text.old ++ label_text y member) }
{
    write!(text, "<text x='24' y='{y}'>{member}</text>\n")?;
    Ok(())
}

// Adds the numbers of the members.
fn push_members(text: &mut String, members: u8) -> Result<(), AllocError>
    ensures { OnOk result (string_bytes text.new
        ≡ string_bytes text.old ++ members_text members) }
{
    for member in 0..members {
        let y = height_of(member);
        push_label(text, y + 4, member)?;
    }
    Ok(())
}

// Begins the key.
fn push_key_head(text: &mut String, y: u64) -> Result<(), AllocError>
    ensures { OnOk result (string_bytes text.new ≡ string_bytes text.old ++ key_head y) }
{
    write!(text, "<g class='k' transform='translate(60 {y})'>\n")?;
    Ok(())
}

// Adds the signs of the lines that are drawn.
fn push_line_signs(text: &mut String, links: Links) -> Result<(), AllocError>
    ensures { OnOk result (string_bytes text.new ≡ string_bytes text.old ++ line_signs links) }
{
    match links {
        Links::All => {
            push_vote_sign(text)?;
            push_parent_sign(text)
        }
        Links::Votes => push_thin_vote_sign(text),
        Links::Hidden => Ok(()),
    }
}

// Adds how many frames are rejected.
fn push_rejected(text: &mut String, rejected: u64) -> Result<(), AllocError>
    ensures { OnOk result (string_bytes text.new
        ≡ string_bytes text.old ++ rejected_line rejected) }
{
    write!(
        text,
        "<text y='100'>rejected frames, not drawn: {rejected} (see bkreplay frames)</text>\n"
    )?;
    Ok(())
}

// Adds the key and the end.
fn push_key(text: &mut String, members: u8, links: Links, rejected: u64) -> Result<(), AllocError>
    ensures { OnOk result (string_bytes text.new
        ≡ string_bytes text.old ++ key_text members links rejected) }
{
    let y = height_of(members);
    push_key_head(text, y + 20)?;
    push_signs(text)?;
    push_line_signs(text, links)?;
    push_rejected(text, rejected)?;
    text.push_str("</g>\n</svg>\n")?;
    Ok(())
}

/// The text of a picture: SVG 1.1.
pub fn svg_of(alloc: Global, picture: &Picture) -> Result<String, AllocError>
    ensures { IfOk result (λ text. string_bytes text ≡ svg_text picture.now) }
{
    let mut text = String::new(alloc);
    push_head(&mut text, picture)?;
    push_all_links(&mut text, picture.links, picture.from, &picture.columns)?;
    push_columns(&mut text, picture.from, &picture.columns)?;
    push_members(&mut text, picture.members)?;
    push_key(&mut text, picture.members, picture.links, picture.rejected)?;
    Ok(text)
}
