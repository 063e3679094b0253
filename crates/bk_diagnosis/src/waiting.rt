//! What keeps the certificates that wait from being admitted, as what a feed answers.

ghost use Rattle.std.specs.Prelude.{◌≡◌, ◌↔◌, Contains, IfOk, OnOk, string_bytes};
ghost use Rattle.bk_cert.specs.Node.{Node};
ghost use Rattle.bk_cert.specs.declared.place.CertRef.{CertRef};
ghost use Rattle.bk_committee.specs.Payload.{sizes_of};
ghost use Rattle.bk_rounds.specs.Admission.{WaitsAt};
ghost use Rattle.bk_diagnosis.specs.Answers.{ShowsLines};
ghost use Rattle.bk_diagnosis.specs.Waiting.{AreWaitingIn};
ghost use Rattle.bk_diagnosis.specs.private.Graph.{AddsWaiting, AreLinesOf, IsEntry, graph_of};
ghost use Rattle.bk_diagnosis.specs.private.Shows.{HasText};

use crate::graph::Graph;
use crate::line::{Line, has_lines, push_lines};
use bk_answer::{ClosedOrder, OrderAnswer};
use bk_cert::CertRef;
use bk_order::Intake;
use bk_rounds::Rounds;
use std::alloc::{AllocError, Global};

// Makes the lines of the certificate that waits at a place.
fn fill_entry(entry: &mut Vec<Line>, graph: &Graph<'_>, place: CertRef) -> Result<(), AllocError>
    requires { WaitsAt graph.now.sizes graph.now.certs place }
    ensures { OnOk result (IsEntry graph.now place entry.new.items) }
{
    entry.clear();
    if let Some(cert) = graph.waiting_at(place) {
        let id = *cert.id();
        let CertRef { round, author } = place;
        entry.push(Line::Waiting { round, author, id })?;
        graph.push_reasons(entry, cert)?;
    }
    Ok(())
}

// Adds the lines of the certificates that wait at these places to a text.
fn push_waiting(
    alloc: Global,
    text: &mut String,
    graph: &Graph<'_>,
    places: &[CertRef],
) -> Result<(), AllocError>
    requires { (a : CertRef) → Contains places.now a → WaitsAt graph.now.sizes graph.now.certs a }
    ensures { OnOk result (AddsWaiting graph.now places.now (string_bytes text.old)
        (string_bytes text.new)) }
{
    let mut entry = Vec::new(alloc);
    for place in places {
        fill_entry(&mut entry, graph, *place)?;
        push_lines(text, &entry)?;
    }
    Ok(())
}

// The lines of all that waits.
fn text_of_waiting(alloc: Global, intake: &Intake, rounds: &Rounds) -> Result<String, AllocError>
    requires sizes { rounds.now.sizes ≡ sizes_of intake.now.committee }
    requires same { (c : Node) → Contains intake.now.kept.certs c ↔ Contains rounds.now.held c }
    ensures { IfOk result (λ text. HasText (AreLinesOf (graph_of rounds.now intake.now))
        (string_bytes text)) }
{
    let graph = Graph::new(alloc, intake, rounds)?;
    let places = rounds.waiting()?;
    let mut text = String::new(alloc);
    push_waiting(alloc, &mut text, &graph, &places)?;
    Ok(text)
}

/// What keeps the certificates that wait from being admitted, as what a feed answers: a line for each, by round and
/// author, and after it one for each parent that keeps it, by id, or where none does the weight of the parents' authors.
/// It ends with whether there is a line.
#[derive(Clone, Copy)]
pub struct Waiting;

impl OrderAnswer for Waiting {
    type End = bool;

    ghost can_ask = { λ _. Unit {0} };

    ghost text = { λ _. ShowsLines AreWaitingIn };

    fn text(&self, alloc: Global, order: &ClosedOrder<'_>) -> Result<(bool, Vec<u8>), AllocError> {
        let rounds = order.rounds();
        let text = text_of_waiting(alloc, order.intake, rounds)?;
        Ok((has_lines(&text), text.into_bytes()))
    }
}
