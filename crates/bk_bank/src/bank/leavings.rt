//! What a leaving can do: count the successors down, and become a pass.
ghost use Rattle.std.specs.Prelude.{◌≡◌, ℕ, ◌+◌, ◌<◌, ◌≤◌, length, slice_index};
ghost use Rattle.bk_bank.specs.Bank.{bank_scene, pass_data, IsPassOf, IsLeavingOf, Releases};

use super::{Bank, Leaving, Pass, Step};
use crate::plays::Release;

impl Leaving {
    /// The place that was left.
    pub fn place(&self) -> u32
        ensures { result ≡ self.now.place }
    {
        self.place
    }
}

impl Bank {
    // The direct successors of a place.
    fn after(&self, place: u32) -> &[u32]
        requires { place < (bank_scene self.now).places }
        ensures list { result.now ≡ (bank_scene self.now).next place }
        ensures inside { (k : ℕ) → k < length result.now
            → slice_index result.now k < (bank_scene self.now).places }
    {
        self.plan.after(place)
    }

    /// Counts the next successor down, by one subtraction on its state word.
    pub fn release(&self, leaving: &mut Leaving) -> Step
        requires own { IsLeavingOf self.now leaving.old }
        ensures own { IsLeavingOf self.now leaving.new × (leaving.new.place ≡ leaving.old.place) }
        ensures step { Releases (bank_scene self.now) leaving.old leaving.new result }
    {
        let after = self.after(leaving.place);
        if leaving.next == after.len() {
            return Step::End;
        }
        let place = after[leaving.next];
        let word = self.state_word(place);
        let found = self
            .table
            .shared
            .fetch_sub::<Release>(&mut leaving.seat, word, 1);
        leaving.next += 1;
        if found == 1 {
            Step::Became(place)
        } else {
            Step::More
        }
    }

    /// A pass again, once no successor is left to count down.
    pub fn leave(&self, leaving: Leaving) -> Pass
        requires own { IsLeavingOf self.now leaving }
        requires ended { leaving.next ≡ length ((bank_scene self.now).next leaving.place) }
        ensures { result ≡ pass_data leaving.table leaving.view }
    {
        let Leaving {
            seat,
            place: _,
            next: _,
        } = leaving;
        Pass { seat }
    }
}
