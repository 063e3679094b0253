//! Whether the slots of a plan are enough for its transactions, in version One.

ghost use Rattle.std.specs.Prelude.{◌≡◌, ◌<◌, None, length, true, slice_index_or};
ghost use Rattle.std.specs.List.{list_all};
ghost use Rattle.bk_base.specs.declared.version.Version.TheVariants.{One};
ghost use Rattle.bk_rules.specs.Part.{are_held, is_held, is_held_id};

use bk_conflicts::Plan;
use bk_rules::Ids;
use bk_tx::Declarations;

/// Whether each account that the transactions of a plan declare is one of its slots, or has no slot in the ledger.
///
/// Where a place has words of all its accounts, no account is looked up: the plan did it.
pub(crate) fn holds_all(plan: &Plan, slots: &Ids) -> bool
    ensures { result ≡ true → are_held One slots.now plan.now.ids plan.now.txs ≡ true }
{
    for place in 0..plan.len() {
        if !holds_place(plan, slots, place as u32) {
            return false;
        }
    }
    true
}

// The same of one place.
fn holds_place(plan: &Plan, slots: &Ids, place: u32) -> bool
    requires { place < length plan.now.txs }
    ensures { result ≡ true →
        is_held One slots.now plan.now.ids (slice_index_or plan.now.txs place None) ≡ true }
{
    match plan.tx(place) {
        None => true,
        Some(tx) => {
            let declared = tx.declared();
            if plan.words_of(place).len() == 2 * declared.len() {
                return true;
            }
            holds_declared(plan.ids(), slots, declared)
        }
    }
}

// Whether ids hold each of these accounts.
fn holds_declared(ids: &Ids, slots: &Ids, declared: &Declarations) -> bool
    ensures { result ≡ list_all (λ d. is_held_id One slots.now ids.now d.id) declared.now }
{
    for k in 0..declared.len() {
        let id = declared.get(k).id;
        if !holds_id(ids, slots, id) {
            return false;
        }
    }
    true
}

// Whether ids hold an account.
fn holds_id(ids: &Ids, slots: &Ids, id: u64) -> bool
    ensures { result ≡ is_held_id One slots.now ids.now id }
{
    ids.contains(id) || !slots.contains(id)
}
