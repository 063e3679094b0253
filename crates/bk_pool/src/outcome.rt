//! What the words of a closed bank give.
ghost use Rattle.std.specs.Prelude.{◌≡◌, ◌+◌, ◌*◌, ◌^◌, ◌<◌, ◌≤◌, length, IfOk, IfErr, vec_len};
ghost use Rattle.std.specs.Vec.{vec_capacity};
ghost use Rattle.bk_rules.specs.Numbers.{number_of};
ghost use Rattle.bk_conflicts.specs.SceneOf.{CanRunOn};
ghost use Rattle.bk_bank.specs.Words.{state_at, moved_word_at, AllFinished, IsFirstUnfinished};
ghost use Rattle.bk_pool.specs.declared.outcome.ExecFault.TheVariants.{OutOfMemory};
ghost use Rattle.bk_steps.specs.Schedule.{IsFoldOf};
ghost use Rattle.bk_steps.specs.Left.{RunLeaves};
ghost use Rattle.bk_pool.specs.Outcomes.{IsClosed, IsFoldOnto, IsLeft, IsBelow, RunLeavesOnto};
ghost use Rattle.bk_pool.specs.private.Receipts.{AreAdded, AreStatuses, AreNumbers};

use bk_bank::Words;
use bk_conflicts::Plan;
use bk_rules::{Account, PackedReceipt, Receipt, State, Status};
use bk_steps::Outcome;
use std::alloc::{AllocError, Global};

/// Why an execution gives no outcome.
#[derive(Drop)]
pub enum ExecFault {
    /// Memory was refused.
    OutOfMemory,
    /// This place is not done, and each before it is: the worker that took it was lost.
    Unfinished(u32),
}

impl From<AllocError> for ExecFault {
    ghost from_gives = { λ _ e. e ≡ OutOfMemory };

    fn from(_refused: AllocError) -> ExecFault {
        ExecFault::OutOfMemory
    }
}

/// `Ok` where every place is done, with the accounts and receipts of the places one at a time, which
/// are those that the run of the workers left; else the least place that is not done. The words are those of a bank of this plan, closed, and the
/// state is the one that it was made of: it is written over.
pub fn outcome_of(
    alloc: Global,
    plan: &Plan,
    state: State,
    words: &Words,
) -> Result<Outcome, ExecFault>
    requires runs { CanRunOn plan.now state }
    requires closed { IsClosed plan.now state words.now }
    ensures done { IfOk result (λ o. AllFinished words.now) }
    ensures fold { IfOk result (λ o. IsFoldOf plan.now state o) }
    ensures ran { IfOk result (λ o. RunLeaves plan.now state o.receipts.items o.state.rows) }
    ensures left { IfErr result (λ e. IsLeft words.now e) }
    ensures below { IfErr result (λ e. IsBelow (length plan.now.txs) e) }
{
    let mut receipts = Vec::new(alloc);
    let state = outcome_onto(plan, state, words, &mut receipts)?;
    Ok(Outcome { state, receipts })
}

/// The same, with the receipts at the end of a list. On an `Err` the list has what it had before.
pub fn outcome_onto(
    plan: &Plan,
    state: State,
    words: &Words,
    receipts: &mut Vec<PackedReceipt>,
) -> Result<State, ExecFault>
    requires runs { CanRunOn plan.now state }
    requires closed { IsClosed plan.now state words.now }
    ensures done { IfOk result (λ s. AllFinished words.now) }
    ensures fold { IfOk result
        (IsFoldOnto plan.now state receipts.old.items receipts.new.items) }
    ensures ran { IfOk result
        (RunLeavesOnto plan.now state receipts.old.items receipts.new.items) }
    ensures unchanged { IfErr result (λ e. receipts.new.items ≡ receipts.old.items) }
    ensures left { IfErr result (λ e. IsLeft words.now e) }
    ensures below { IfErr result (λ e. IsBelow (length plan.now.txs) e) }
{
    // A plan's length also says that its accounts are few.
    let _ = plan.len();
    if let Some(place) = words.first_unfinished() {
        return Err(ExecFault::Unfinished(place));
    }
    receipts.reserve(plan.len())?;
    push_receipts(plan.len(), words, receipts);
    let version = state.version();
    let (ids, numbers) = state.into_numbers();
    let mut numbers = numbers;
    write_numbers(&mut numbers, words);
    Ok(State::of_numbers(version, ids, numbers))
}

// Puts the receipts of the places, all of which are done, at the end of a list that has room for them.
fn push_receipts(places: usize, words: &Words, receipts: &mut Vec<PackedReceipt>)
    requires places { (places ≡ words.now.places) × (places < 2 ^ 31) }
    requires statuses { AreStatuses words.now }
    requires room { vec_len receipts.old + places ≤ vec_capacity receipts.old }
    ensures { AreAdded words.now receipts.old.items receipts.new.items places }
{
    for place in 0..places {
        receipts.push_reserved(PackedReceipt::of(receipt_of(place as u32, words)));
    }
}

// The receipt of a place that is done.
fn receipt_of(place: u32, words: &Words) -> Receipt
    requires place { place < words.now.places }
    requires statuses { AreStatuses words.now }
    ensures status { state_at words.now place ≡ 2 ^ 63 + number_of result.status }
    ensures moved { result.moved ≡ moved_word_at words.now place }
{
    let number = words.state_of(place) - (1 << 63);
    let Some(status) = Status::of_number(number as u8) else {
        unreachable!();
    };
    let moved = words.moved(place);
    Receipt { status, moved }
}

// Writes the numbers of the accounts, two words each, over those of a list.
fn write_numbers(numbers: &mut [Account], words: &Words)
    requires { 2 * length numbers.old ≡ words.now.words }
    ensures { AreNumbers words.now numbers.new words.now.words }
{
    for k in 0..numbers.len() {
        numbers[k] = Account {
            balance: words.word(2 * k),
            seq: words.word(2 * k + 1),
        };
    }
}
