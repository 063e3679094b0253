//! Slices that are planned in a thread that stays until there is none more.

ghost use Rattle.std.specs.Prelude.{◌≡◌, ◌^◌, ◌<◌, map, length, IfOk};
ghost use Rattle.rtrb.specs.Ring.{received, sent};
ghost use Rattle.bk_ledger.specs.private.Handing.{AreHanded, ArePlanned};

use crate::batches::Batches;
use crate::handing::{Giving, Taking, hands};
use crate::reading::{Handed, Read};
use crate::ready::{Next, plan_ahead};
use bk_base::Version;
use bk_conflicts::Planner;
use bk_rules::Ids;
use crossbeam_utils::sync::Parker;
use rtrb::Protocol;
use std::alloc::{AllocError, Global};
use std::sync::Wait;

/// A slice that is handed on once it is planned.
#[derive(Drop)]
pub(crate) struct Planned<'a, 'b> {
    /// All batches, of which it is some.
    pub(crate) payloads: &'a [&'a [u8]],
    /// By which rules it is planned.
    pub(crate) version: Version,
    /// The slots of the ledger, over some of which it is.
    pub(crate) ids: &'b Ids,
    /// The slice; as it was read, where it declares accounts without a slot.
    pub(crate) next: Next,
}

/// One slice after another, of the batches that the first one names, by its rules and over its slots. That one is none of
/// them.
#[derive(Drop)]
pub(crate) struct PlannedInOrder;

impl<'a, 'b> Protocol<Planned<'a, 'b>> for PlannedInOrder {
    ghost use Rattle.bk_ledger.specs.private.Handing.{follows_planned};

    ghost allows = { follows_planned };
}

pub(crate) type Planning<'a, 'b> = Giving<Planned<'a, 'b>, PlannedInOrder>;

pub(crate) type Plans<'a, 'b> = Taking<Planned<'a, 'b>, PlannedInOrder>;

/// Where slices of these batches are handed on, planned by these rules over some of these slots. None is yet.
pub(crate) fn plans<'a, 'b>(
    alloc: Global,
    payloads: &'a [&'a [u8]],
    version: Version,
    ids: &'b Ids,
    from: &Parker,
    to: &Parker,
) -> Result<(Planning<'a, 'b>, Plans<'a, 'b>), AllocError>
    ensures gives { IfOk result (λ r.
        ArePlanned (map (λ p. p.now) payloads.now) version ids.now 0 (sent r.0.giver)) }
    ensures takes { IfOk result (λ r.
        ArePlanned (map (λ p. p.now) payloads.now) version ids.now 0 (received r.1.taker)) }
{
    let none = Batches::new(alloc);
    let first = Planned {
        payloads,
        version,
        ids,
        next: Next::Read(none),
    };
    let (giving, taking) = hands(alloc, first, from, to)?;
    Ok((giving, taking))
}

/// Plans the slices that come, if each account that they declare has a slot among these, and hands them on as long as they
/// are taken.
pub(crate) fn plan_all<'a, 'b>(
    rt: &impl Wait,
    alloc: Global,
    payloads: &'a [&'a [u8]],
    version: Version,
    ids: &'b Ids,
    taking: Read<'a>,
    giving: Planning<'a, 'b>,
    own: Parker,
) -> Result<(), AllocError>
    requires taken { AreHanded (map (λ p. p.now) payloads.now) 0 (received taking.taker) }
    requires handed { ArePlanned (map (λ p. p.now) payloads.now) version ids.now 0 (sent giving.giver) }
{
    let mut taking = taking;
    let mut giving = giving;
    // It plans each slice in the memory of those before.
    let mut planner = Planner::new(alloc);
    for _ in rt.forever() {
        let Some(handed) = taking.take_next(rt, &own) else {
            return Ok(());
        };
        let Handed { payloads, read } = handed;
        let next = plan_ahead(alloc, &mut planner, read, version, ids)?;
        let planned = Planned {
            payloads,
            version,
            ids,
            next,
        };
        if !giving.hand_on(rt, planned, &own) {
            return Ok(());
        }
    }
    Ok(())
}
