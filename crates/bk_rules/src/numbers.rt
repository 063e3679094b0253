//! The numbers of all slots, set at once where they lie.

ghost use Rattle.std.specs.Prelude.{◌≡◌, ◌^◌, ◌<◌, length, map};
ghost use Rattle.bk_base.specs.declared.version.Version.TheVariants.{Two};
ghost use Rattle.bk_base.specs.Genesis.{total_of};
ghost use Rattle.bk_rules.specs.Ledger.{ledger_of, rows_shown, slot_numbers};
ghost use Rattle.bk_rules.specs.private.Slots.{tidied};

use crate::account::Account;
use crate::ids::Ids;
use crate::state::{State, numbers_of, shown};
use bk_base::Version;

impl State {
    /// The ids that have a slot, and the list of the slots' numbers. Others can be written over these: `of_numbers`
    /// makes a state of them again, and nothing was copied.
    pub fn into_numbers(self) -> (Ids, Vec<Account>)
        ensures ids { result.0 ≡ self.slots }
        ensures numbers { result.1.items ≡ slot_numbers self }
    {
        let State {
            version: _,
            ids,
            numbers,
        } = self;
        (ids, numbers)
    }

    /// The state of these accounts: slot k has the k-th id and the k-th of these numbers. In version Two its account is
    /// absent if the sequence number is 2^64 - 1. Both become the state's own: nothing is copied. O(n) in version Two,
    /// else O(1).
    pub fn of_numbers(version: Version, ids: Ids, numbers: Vec<Account>) -> State
        requires length { length numbers.items ≡ length ids }
        requires within { total_of (rows_shown version ids numbers.items) < 2 ^ 63 }
        ensures { result ≡ ledger_of version ids (rows_shown version ids numbers.items) }
    {
        // Its contract says that they ascend.
        let _ = ids.as_slice();
        State {
            version,
            ids,
            numbers: kept(version, numbers),
        }
    }
}

// Numbers as a state keeps them: all absent accounts have the same.
fn kept(version: Version, numbers: Vec<Account>) -> Vec<Account>
    ensures { result.items ≡ map (tidied version) numbers.items }
{
    match version {
        Version::One => numbers,
        Version::Two => {
            let mut numbers = numbers;
            tidy_all(&mut numbers);
            numbers
        }
    }
}

// The same in version Two.
fn tidy_all(numbers: &mut [Account])
    ensures { numbers.new ≡ map (tidied Two) numbers.old }
{
    for k in 0..numbers.len() {
        numbers[k] = numbers_of(shown(Version::Two, numbers[k]));
    }
}
