//! All evidence in the frames of a feed.

ghost use Rattle.std.specs.Prelude.{◌≡◌, ◌++◌, [], map, IfOk, OnOk, string_bytes};
ghost use Rattle.bk_diagnosis.specs.Answers.{ShowsLines};
ghost use Rattle.bk_diagnosis.specs.Evidence.{IsAllEvidence, IsEvidenceIn};
ghost use Rattle.bk_diagnosis.specs.Lines.{text_of};
ghost use Rattle.bk_diagnosis.specs.declared.line.Line.TheVariants as line;

use crate::colliding::colliding_ids;
use crate::line::{Line, has_lines, push_lines};
use crate::twins::{add_twins, named_in_order};
use bk_answer::FrameAnswer;
use bk_digest::Digest32;
use bk_evidence::{Batches, Held};
use bk_order::Intake;
use std::alloc::{AllocError, Global};

// The lines of all evidence in what is held.
fn all_evidence(alloc: Global, held: &Held, stored: &Batches) -> Result<Vec<Line>, AllocError>
    ensures { IfOk result (λ lines. IsAllEvidence held.now stored.now lines.items) }
{
    let ids = colliding_ids(alloc, held, stored)?;
    let list = named_in_order(alloc, held.certs())?;
    let mut lines = Vec::new(alloc);
    add_collisions(&mut lines, &ids)?;
    add_twins(&mut lines, &list)?;
    Ok(lines)
}

// Adds the line of each id that collides.
fn add_collisions(lines: &mut Vec<Line>, ids: &[Digest32]) -> Result<(), AllocError>
    ensures { OnOk result (lines.new.items ≡ lines.old.items ++ map line.Collision ids.now) }
{
    lines.reserve(ids.len())?;
    for id in ids {
        lines.push(Line::Collision { id: *id })?;
    }
    Ok(())
}

// The text of lines.
fn text_of_lines(alloc: Global, lines: &[Line]) -> Result<String, AllocError>
    ensures { IfOk result (λ text. string_bytes text ≡ text_of lines.now) }
{
    let mut text = String::new(alloc);
    push_lines(&mut text, lines)?;
    Ok(text)
}

/// All evidence in the frames of a feed, whether something stops it or not: each id or digest that collides, and then each
/// place with several ids, the least with each of the others. It ends with whether there is some.
#[derive(Clone, Copy)]
pub struct Evidence;

impl FrameAnswer for Evidence {
    type End = bool;

    ghost can_ask = { λ _. Unit {0} };

    ghost text = { λ _. ShowsLines IsEvidenceIn };

    fn text(&self, alloc: Global, intake: &Intake) -> Result<(bool, Vec<u8>), AllocError> {
        let lines = all_evidence(alloc, intake.held(), intake.stored())?;
        let text = text_of_lines(alloc, &lines)?;
        Ok((has_lines(&text), text.into_bytes()))
    }
}
