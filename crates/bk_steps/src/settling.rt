//! The rule on the words of a place, as plain numbers.
ghost use Rattle.std.specs.Prelude.{◌≡◌, ℕ, ◌+◌, ◌^◌, ◌<◌, ◌≤◌, length, Some, None};
ghost use Rattle.bk_tx.specs.Access.{declares};
ghost use Rattle.bk_rules.specs.Rule.{Accounts};
ghost use Rattle.bk_rules.specs.View.{nth, nth_id};
ghost use Rattle.bk_rules.specs.Ledger.{shown_by};
ghost use Rattle.bk_conflicts.specs.Conflicts.{declared_at};
ghost use Rattle.bk_conflicts.specs.Words.{slot_of, words_at};
ghost use Rattle.bk_conflicts.specs.SceneOf.{accounts_by, word_by, tx_at};
ghost use Rattle.bk_steps.specs.Settling.{wide, said_at, put_at, words_before, words_in, Say, AreOf, AreLow, Does};

use bk_base::Version;
use bk_conflicts::{Plan, WordRef};
use bk_rules::{Account, Ids, Local, Receipt, Status, settle};
use bk_tx::{Declarations, Tx};

// The words of a place, if there is such a place.
#[inline(always)]
fn words_of(plan: &Plan, place: u32) -> &[WordRef]
    ensures { place < length plan.now.txs →
        result.now ≡ words_at plan.now.ids plan.now.txs place }
{
    if (place as usize) < plan.len() {
        plan.words_of(place)
    } else {
        &[]
    }
}

// The slot of the k-th declared account. Its words begin at an index among those of all, if it has any.
//
// Where there are two words of each account, the slot is that of its words, and no id is looked at.
#[inline(always)]
fn slot_of(
    ids: &Ids,
    declared: &Declarations,
    words: &[WordRef],
    k: usize,
    at: usize,
) -> Option<usize>
    requires index { k < length declared.now }
    requires words { words.now ≡ words_in ids.now declared.now }
    requires at { at ≡ words_before ids.now declared.now k }
    ensures { result ≡ slot_of ids.now (nth_id declared.now k) }
{
    if words.len() == 2 * declared.len() {
        return Some(words[at].word as usize / 2);
    }
    let near = match words.get(at) {
        Some(word) => word.word as usize / 2,
        None => usize::MAX,
    };
    ids.index_by(declared.get(k).id, near)
}

// How many words an account has: none where it has no slot.
#[inline(always)]
fn wide(slot: Option<usize>) -> usize
    ensures { result ≡ wide slot }
{
    match slot {
        None => 0,
        Some(_) => 2,
    }
}

// The account that two numbers show.
#[inline(always)]
fn shown(version: Version, balance: u64, seq: u64) -> Option<Account>
    ensures { result ≡ shown_by version (record { balance = balance; seq = seq }) }
{
    match version {
        Version::One => Some(Account { balance, seq }),
        Version::Two => {
            if seq == u64::MAX {
                None
            } else {
                Some(Account { balance, seq })
            }
        }
    }
}

// The account that the words at an index say, if it has words.
#[inline(always)]
fn said(version: Version, slot: Option<usize>, values: &[u64], at: usize) -> Option<Account>
    requires { at + wide slot ≤ length values.now }
    ensures { result ≡ said_at version slot values.now at }
{
    match slot {
        None => None,
        Some(_) => shown(version, values[at], values[at + 1]),
    }
}

// Sets the words at an index to those of an account, if it has words.
#[inline(always)]
fn put(values: &mut [u64], at: usize, slot: Option<usize>, account: Option<Account>)
    requires { at + wide slot ≤ length values.old }
    ensures { values.new ≡ put_at slot account values.old at }
{
    if slot.is_some() {
        let numbers = account.unwrap_or(Account {
            balance: 0,
            seq: u64::MAX,
        });
        values[at] = numbers.balance;
        values[at + 1] = numbers.seq;
    }
}

// Puts the accounts that the words of a place say into a list of none, the i-th being the i-th that is declared. The
// list is filled where it lies: one that is returned would be copied right after its numbers were written, and the copy
// would wait for them.
#[inline(always)]
fn put_local(
    version: Version,
    ids: &Ids,
    declared: &Declarations,
    words: &[WordRef],
    values: &[u64],
    local: &mut Local,
)
    requires words { words.now ≡ words_in ids.now declared.now }
    requires few { length (words_in ids.now declared.now) ≤ length values.now }
    requires wide { length local.old ≡ 8 }
    requires none { (k : ℕ) → nth local.old k ≡ None }
    ensures found { (f : ℕ → ℕ) → Say f ids.now declared.now values.now
        → (k : ℕ) → k < length declared.now
        → nth local.new k ≡ accounts_by version ids.now f (nth_id declared.now k) }
    ensures rest { (k : ℕ) → length declared.now ≤ k → nth local.new k ≡ None }
{
    let mut at = 0;
    for k in 0..declared.len() {
        let slot = slot_of(ids, declared, words, k, at);
        let account = said(version, slot, values, at);
        local.set(k, account);
        at += wide(slot);
    }
}

// Sets the words of a place to those of its accounts.
#[inline(always)]
fn put_accounts(
    ids: &Ids,
    declared: &Declarations,
    words: &[WordRef],
    local: &Local,
    values: &mut [u64],
)
    requires words { words.now ≡ words_in ids.now declared.now }
    requires few { length (words_in ids.now declared.now) ≤ length values.old }
    ensures { (accounts : Accounts) → AreOf accounts declared.now local.now
        → Say (word_by ids.now accounts) ids.now declared.now values.new }
{
    let mut at = 0;
    for k in 0..declared.len() {
        let slot = slot_of(ids, declared, words, k, at);
        put(values, at, slot, local.account(k));
        at += wide(slot);
    }
}

// Does a transaction on the words of its place.
#[inline(always)]
fn settle_tx(version: Version, ids: &Ids, tx: &Tx, words: &[WordRef], values: &mut [u64]) -> Receipt
    requires words { words.now ≡ words_in ids.now tx.now.declared }
    requires few { length (words_in ids.now tx.now.declared) ≤ length values.old }
    requires low { AreLow version ids.now tx.now.declared values.old }
    ensures { (f : ℕ → ℕ) → Say f ids.now tx.now.declared values.old
        → Does version ids.now (Some tx.now) f result values.new }
{
    let declared = tx.declared();
    let mut local = Local::new();
    put_local(version, ids, declared, words, values, &mut local);
    let receipt = settle(version, tx, &mut local);
    put_accounts(ids, declared, words, &local, values);
    receipt
}

/// Does the transaction of a place on the values of its words, which come in the order of the plan,
/// and gives its receipt.
pub fn settle_words(plan: &Plan, place: u32, values: &mut [u64]) -> Receipt
    requires few { length (words_at plan.now.ids plan.now.txs place) ≤ length values.old }
    requires low { AreLow plan.now.version plan.now.ids
        (declared_at plan.now.txs place) values.old }
    ensures { (f : ℕ → ℕ) → Say f plan.now.ids (declared_at plan.now.txs place) values.old
        → Does plan.now.version plan.now.ids (tx_at plan.now place) f result values.new }
{
    match plan.tx(place) {
        None => Receipt {
            status: Status::Malformed,
            moved: 0,
        },
        Some(tx) => settle_tx(
            plan.version(),
            plan.ids(),
            tx,
            words_of(plan, place),
            values,
        ),
    }
}
