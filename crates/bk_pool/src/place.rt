//! One place, from its hold to its leaving.
ghost use Rattle.std.specs.Prelude.{◌≡◌, ℕ, suc, ◌+◌, ◌<◌, ◌≤◌, length, slice_index, [], true, false};
ghost use Rattle.bk_steps.specs.Moves.{HasReadAll, HasWrittenAll};
ghost use Rattle.bk_bank.specs.declared.view.Stage.TheVariants.{Holding, Leaving as Left};
ghost use Rattle.bk_bank.specs.Setting.{words_at, word_at, may_write};
ghost use Rattle.bk_bank.specs.Plays.{Grows, reads_of, writes_of, stay};
ghost use Rattle.bk_bank.specs.Bank.{bank_scene, IsHoldOf, IsLeavingOf};
ghost use Rattle.bk_pool.specs.Reads.{IsFresh, IsBankOf};

use bk_bank::{Bank, Hold, Leaving};
use bk_conflicts::Plan;
use bk_steps::settle_words;

/// What a caller watches. A worker calls it between its steps; it can wait, but not change a word.
pub trait Gate {
    /// The worker has taken the place, and has read nothing.
    fn inside(&self, place: u32);

    /// The place is done, and no place that waits for it is counted down.
    fn left(&self, place: u32);
}

/// A gate that does nothing.
#[derive(Drop)]
pub struct Open;

impl Gate for Open {
    fn inside(&self, _place: u32) {}

    fn left(&self, _place: u32) {}
}

// As many words as a place can have: eight accounts of two words.
const MOST: usize = 16;

/// Executes the place that is held: reads its words, does its transaction on them, writes those
/// that it may, and leaves it with its receipt. Nothing but the bank says what is in a word.
pub fn run_place<G: Gate>(bank: &Bank, plan: &Plan, hold: Hold, gate: &G) -> Leaving
    requires own { IsHoldOf bank.now hold }
    requires plan { IsBankOf plan.now bank.now }
    requires fresh { IsFresh hold }
    ensures own { IsLeavingOf bank.now result }
    ensures left { (result.place ≡ hold.place) × (result.next ≡ 0) }
    ensures view { result.view ≡ stay hold.view (Left hold.place 0 0) }
    ensures grows { Grows hold.view result.view }
{
    let place = hold.place();
    gate.inside(place);
    let mut hold = hold;
    let mut values = [0; MOST];
    // A plan's length also says that its accounts are few.
    let _ = plan.len();
    let count = plan.words_of(place).len();
    read_all(bank, &mut hold, count, &mut values);
    let receipt = settle_words(plan, place, &mut values);
    write_all(bank, plan, &mut hold, &values);
    let leaving = bank.finish(hold, receipt.status.number(), receipt.moved);
    gate.left(place);
    leaving
}

// Reads all words of the place that is held.
fn read_all(bank: &Bank, hold: &mut Hold, count: usize, values: &mut [u64])
    requires own { IsHoldOf bank.now hold.old }
    requires count { count ≡ length (words_at bank.now.setting.plan hold.old.place) }
    requires room { count ≤ length values.old }
    requires fresh { writes_of hold.old.view.stage ≡ [] }
    ensures own { IsHoldOf bank.now hold.new × (hold.new.place ≡ hold.old.place) }
    ensures fresh { writes_of hold.new.view.stage ≡ [] }
    ensures stays { hold.new.view ≡ stay hold.old.view hold.new.view.stage }
    ensures read { HasReadAll (bank_scene bank.now) hold.old.place (reads_of hold.new.view.stage) }
    ensures values { let plan = bank.now.setting.plan in (k : ℕ) → k < count
        → slice_index values.new k
        ≡ (bank_scene bank.now).fold hold.old.place (word_at plan hold.old.place k) }
    ensures wide { length values.new ≡ length values.old }
{
    for i in 0..count {
        values[i] = bank.read(hold, i);
    }
}

// Writes all words of the place that it may write.
fn write_all(bank: &Bank, plan: &Plan, hold: &mut Hold, values: &[u64])
    requires own { IsHoldOf bank.now hold.old }
    requires plan { plan.now ≡ bank.now.setting.plan }
    requires read { HasReadAll (bank_scene bank.now) hold.old.place (reads_of hold.old.view.stage) }
    requires fresh { writes_of hold.old.view.stage ≡ [] }
    requires room { length (words_at bank.now.setting.plan hold.old.place) ≤ length values.now }
    requires values { let plan = bank.now.setting.plan in let place = hold.old.place in
        (k : ℕ) → k < length (words_at plan place) → may_write plan place k ≡ true
        → slice_index values.now k ≡ (bank_scene bank.now).fold (suc place) (word_at plan place k) }
    ensures own { IsHoldOf bank.now hold.new × (hold.new.place ≡ hold.old.place) }
    ensures read { HasReadAll (bank_scene bank.now) hold.old.place (reads_of hold.new.view.stage) }
    ensures stays { hold.new.view ≡ stay hold.old.view hold.new.view.stage }
    ensures wrote { HasWrittenAll (bank_scene bank.now) hold.old.place
        (writes_of hold.new.view.stage) }
{
    let words = plan.words_of(hold.place());
    for i in 0..words.len() {
        if words[i].writable {
            bank.write(hold, i, values[i]);
        }
    }
}
