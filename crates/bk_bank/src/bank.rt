//! The bank, and what a pass to it becomes.

use crate::view::{About, Ordered, View};
use atomic_table::{Seat, Table};
use bk_conflicts::Plan;
use std::alloc::Global;
use std::marker::Model;
use std::sync::Arc;

mod closing;
mod holds;
mod leavings;
mod opening;
mod passes;

/// The words of an execution. Every call takes it by `&`, so that many threads can have it at once.
#[derive(Drop)]
pub struct Bank {
    table: Table<(), View, About, Ordered, Global>,
    plan: Arc<Plan>,
}

impl Model for Bank {
    ghost use Rattle.std.specs.Arc.{arc_value};
    ghost use Rattle.bk_bank.specs.Bank.{BankData, bank_data};
    ghost use Rattle.bk_bank.specs.private.Inside.{IsBank};

    ghost Value = { BankData };

    ghost view = { λ b. bank_data b.table.shared.table_id b.table.shared.key };

    ghost invariant = { λ b. IsBank b.table.shared.table_id b.table.shared.key (arc_value b.plan) };
}

/// The right of one thread to take a place, with what it knows.
#[derive(Drop)]
pub struct Pass {
    seat: Seat<(), View>,
}

impl Model for Pass {
    ghost use Rattle.bk_bank.specs.Bank.{PassData, pass_data};
    ghost use Rattle.bk_bank.specs.private.Inside.{IsPass};

    ghost Value = { PassData };

    ghost view = { λ p. pass_data p.seat.table_id p.seat.me.0 };

    ghost invariant = { λ p. IsPass p.seat.me.0 p.seat.me.1 };
}

/// The right to read and write the words of one place. It becomes a pass again only by `finish`
/// and `leave`.
#[derive(Drop)]
pub struct Hold {
    seat: Seat<(), View>,
    place: u32,
}

impl Model for Hold {
    ghost use Rattle.bk_bank.specs.Bank.{HoldData, hold_data};
    ghost use Rattle.bk_bank.specs.private.Inside.{IsHold};

    ghost Value = { HoldData };

    ghost view = { λ h. hold_data h.seat.table_id h.seat.me.0 h.place };

    ghost invariant = { λ h. IsHold h.seat.me.0 h.seat.me.1 h.place };
}

/// The duty to count down the successors of a place that is done.
#[derive(Drop)]
pub struct Leaving {
    seat: Seat<(), View>,
    place: u32,
    next: usize,
}

impl Model for Leaving {
    ghost use Rattle.bk_bank.specs.Bank.{LeavingData, leaving_data};
    ghost use Rattle.bk_bank.specs.private.Inside.{IsLeaving};

    ghost Value = { LeavingData };

    ghost view = { λ l. leaving_data l.seat.table_id l.seat.me.0 l.place l.next };

    ghost invariant = { λ l. IsLeaving l.seat.me.0 l.seat.me.1 l.place l.next };
}

/// What `release` did.
#[derive(Clone, Copy, Debug, PartialEq, Eq)]
pub enum Step {
    /// It took the count of this place to 0: the place is ready.
    Became(u32),
    /// It took a count down, not to 0.
    More,
    /// No successor was left. Nothing was done.
    End,
}
