//! What a hold can do: read and write the words of its place, and finish.
ghost use Rattle.std.specs.Prelude.{◌≡◌, ◌≢◌, ℕ, suc, ◌+◌, ◌*◌, ◌^◌, ◌<◌, [], ◌∷◌, length, true, false};
ghost use Rattle.bk_conflicts.specs.Scene.{status_at, moved_at};
ghost use Rattle.bk_steps.specs.Course.{Has};
ghost use Rattle.bk_steps.specs.Moves.{HasReadAll, HasWrittenAll};
ghost use Rattle.bk_bank.specs.declared.view.Stage.TheVariants.{Holding, Leaving as Left};
ghost use Rattle.bk_bank.specs.Setting.{words_at, word_at, may_write};
ghost use Rattle.bk_bank.specs.Plays.{stay, reads_of, writes_of};
ghost use Rattle.bk_bank.specs.Bank.{bank_scene, IsHoldOf, IsLeavingOf};

use super::passes::DONE;
use super::{Bank, Hold, Leaving};
use crate::plays::{Finish, Move, Read, Write};

impl Hold {
    /// The place that is held.
    pub fn place(&self) -> u32
        ensures { result ≡ self.now.place }
    {
        self.place
    }
}

impl Bank {
    // Word `i` of a place.
    fn word_of(&self, place: u32, i: usize) -> usize
        requires place { place < (bank_scene self.now).places }
        requires word { i < length (words_at self.now.setting.plan place) }
        ensures word { result ≡ word_at self.now.setting.plan place i }
        ensures declared { (bank_scene self.now).declares place result ≡ true }
        ensures inside { result < self.now.table.words }
    {
        self.plan.words_of(place)[i].word as usize
    }

    /// Word `i` of the place's words: its value before the place, one at a time.
    pub fn read(&self, hold: &mut Hold, i: usize) -> u64
        requires own { IsHoldOf self.now hold.old }
        requires word { i < length (words_at self.now.setting.plan hold.old.place) }
        requires unwritten { writes_of hold.old.view.stage ≡ [] }
        ensures own { IsHoldOf self.now hold.new × (hold.new.place ≡ hold.old.place) }
        ensures value { let word = word_at self.now.setting.plan hold.old.place i in
            result ≡ (bank_scene self.now).fold hold.old.place word }
        ensures view { let word = word_at self.now.setting.plan hold.old.place i in
            let reads = (word, result) ∷ reads_of hold.old.view.stage in
            hold.new.view ≡ stay hold.old.view (Holding hold.old.place reads [] false) }
    {
        let word = self.word_of(hold.place, i);
        self.table.shared.load::<Read>(&mut hold.seat, word)
    }

    /// Sets word `i` of the place's words to its value after the place, one at a time. All words of
    /// the place were read, and this one is declared for writing and not yet written.
    pub fn write(&self, hold: &mut Hold, i: usize, value: u64)
        requires own { IsHoldOf self.now hold.old }
        requires word { i < length (words_at self.now.setting.plan hold.old.place) }
        requires writable { may_write self.now.setting.plan hold.old.place i ≡ true }
        requires read { HasReadAll (bank_scene self.now) hold.old.place
            (reads_of hold.old.view.stage) }
        requires fresh { ¬ Has (writes_of hold.old.view.stage)
            (word_at self.now.setting.plan hold.old.place i) }
        requires value { let word = word_at self.now.setting.plan hold.old.place i in
            value ≡ (bank_scene self.now).fold (suc hold.old.place) word }
        ensures own { IsHoldOf self.now hold.new × (hold.new.place ≡ hold.old.place) }
        ensures view { let word = word_at self.now.setting.plan hold.old.place i in
            let writes = word ∷ writes_of hold.old.view.stage in
            let reads = reads_of hold.old.view.stage in
            hold.new.view ≡ stay hold.old.view (Holding hold.old.place reads writes false) }
    {
        let word = self.word_of(hold.place, i);
        self.table
            .shared
            .store::<Write>(&mut hold.seat, word, value);
    }

    /// Leaves the place, with its receipt in the one-at-a-time fold. All its words were read, and
    /// all that are declared for writing were written. It stores the moved word, then the state
    /// word.
    pub fn finish(&self, hold: Hold, status: u8, moved: u64) -> Leaving
        requires own { IsHoldOf self.now hold }
        requires read { HasReadAll (bank_scene self.now) hold.place (reads_of hold.view.stage) }
        requires wrote { HasWrittenAll (bank_scene self.now) hold.place
            (writes_of hold.view.stage) }
        requires status { status ≡ status_at (bank_scene self.now) hold.place }
        requires moved { moved ≡ moved_at (bank_scene self.now) hold.place }
        ensures own { IsLeavingOf self.now result × (result.place ≡ hold.place) }
        ensures none { result.next ≡ 0 }
        ensures view { result.view ≡ stay hold.view (Left hold.place 0 0) }
    {
        let word = self.state_word(hold.place);
        let Hold { mut seat, place } = hold;
        self.table.shared.store::<Move>(&mut seat, word + 1, moved);
        self.table
            .shared
            .store::<Finish>(&mut seat, word, DONE + status as u64);
        Leaving {
            seat,
            place,
            next: 0,
        }
    }
}
