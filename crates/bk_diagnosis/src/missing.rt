//! The batches that the order of a feed lacks, as what a feed answers.

ghost use Rattle.std.specs.Prelude.{◌≡◌, Contains, IfOk, string_bytes};
ghost use Rattle.bk_cert.specs.declared.place.CertRef.{CertRef};
ghost use Rattle.bk_rounds.specs.Admission.{IsPresent};
ghost use Rattle.bk_diagnosis.specs.Answers.{ShowsLines};
ghost use Rattle.bk_diagnosis.specs.Lines.{text_of};
ghost use Rattle.bk_diagnosis.specs.Missing.{AreMissingIn};
ghost use Rattle.bk_diagnosis.specs.private.Lacking.{missing_lines};

use crate::lacking::lacks_of;
use crate::line::has_lines;
use bk_answer::{ClosedOrder, OrderAnswer};
use bk_order::Intake;
use bk_rounds::Rounds;
use std::alloc::{AllocError, Global};

// The lines of what the order lacks.
fn text_of_missing(alloc: Global, intake: &Intake, rounds: &Rounds) -> Result<String, AllocError>
    requires { (a : CertRef) → Contains intake.now.ordered.order a
        → IsPresent rounds.now.sizes rounds.now.held a }
    ensures { IfOk result (λ text. string_bytes text
        ≡ text_of (missing_lines rounds.now intake.now)) }
{
    let lacks = lacks_of(alloc, rounds, intake.stored(), intake.order())?;
    let mut text = String::new(alloc);
    lacks.push(&mut text)?;
    Ok(text)
}

/// The batches that the order of a feed lacks, as what a feed answers: a line for each digest that an ordered certificate
/// names and that no batch frame has, in the order in which these name them first. It ends with whether there is one.
#[derive(Clone, Copy)]
pub struct Missing;

impl OrderAnswer for Missing {
    type End = bool;

    ghost can_ask = { λ _. Unit {0} };

    ghost text = { λ _. ShowsLines AreMissingIn };

    fn text(&self, alloc: Global, order: &ClosedOrder<'_>) -> Result<(bool, Vec<u8>), AllocError> {
        let rounds = order.rounds();
        let text = text_of_missing(alloc, order.intake, rounds)?;
        Ok((has_lines(&text), text.into_bytes()))
    }
}
