//! A transaction from its bytes, field by field.

ghost use Rattle.std.specs.Prelude.{◌≡◌, ◌≤◌, [], option_map};
ghost use Rattle.bk_base.specs.Numbers.{list_at};
ghost use Rattle.bk_tx.specs.Transaction.{transaction};
ghost use Rattle.bk_tx.specs.Reading.{declared_at, declarations_at, pay_at, pay_if_at, sweep_at, payment_at, split_at, body_at, transaction_of};

use crate::body::Body;
use crate::declared::{Declarations, Declared, MOST_DECLARED};
use crate::payments::{MOST_PAYMENTS, Payment, Payments};
use bk_base::Fields;

#[tactic(auto, unfolding(crate::specs::Reading::declared_at))]
fn declared(fields: &mut Fields) -> Option<Declared>
    ensures { option_map (λ d. (d, fields.new)) result ≡ declared_at fields.old }
{
    let mode = fields.u8()?;
    let id = fields.u64()?;
    if mode > 1 {
        return None;
    }
    Some(Declared {
        id,
        writable: mode == 1,
    })
}

// Puts so many entries into a list of none. It is filled where it lies: a list that is returned would be copied.
fn entries(count: usize, fields: &mut Fields, read: &mut Declarations) -> Option<()>
    requires few { count ≤ 8 }
    requires none { read.old ≡ [] }
    ensures { option_map (λ _. (read.new, fields.new)) result ≡ list_at declared_at count fields.old }
{
    for _ in 0..count {
        let entry = declared(fields)?;
        read.push(entry.id, entry.writable);
    }
    Some(())
}

#[tactic(auto, unfolding(crate::specs::Reading::declarations_at))]
fn declarations(fields: &mut Fields, read: &mut Declarations) -> Option<()>
    requires { read.old ≡ [] }
    ensures { option_map (λ _. (read.new, fields.new)) result ≡ declarations_at fields.old }
{
    let count = fields.u8()? as usize;
    if count < 1 || count > MOST_DECLARED {
        return None;
    }
    entries(count, fields, read)?;
    if !read.is_ascending() {
        return None;
    }
    Some(())
}

#[tactic(auto, unfolding(crate::specs::Reading::pay_at))]
fn pay(fields: &mut Fields, read: &mut Body) -> Option<()>
    ensures { option_map (λ _. (read.new, fields.new)) result ≡ pay_at fields.old }
{
    let Payment { to, amount } = payment(fields)?;
    *read = Body::Pay { to, amount };
    Some(())
}

#[tactic(auto, unfolding(crate::specs::Reading::pay_if_at))]
fn pay_if(fields: &mut Fields, read: &mut Body) -> Option<()>
    ensures { option_map (λ _. (read.new, fields.new)) result ≡ pay_if_at fields.old }
{
    let Payment { to, amount } = payment(fields)?;
    let guard = fields.u64()?;
    let min = fields.u64()?;
    *read = Body::PayIf {
        to,
        amount,
        guard,
        min,
    };
    Some(())
}

#[tactic(auto, unfolding(crate::specs::Reading::sweep_at))]
fn sweep(fields: &mut Fields, read: &mut Body) -> Option<()>
    ensures { option_map (λ _. (read.new, fields.new)) result ≡ sweep_at fields.old }
{
    let to = fields.u64()?;
    let keep = fields.u64()?;
    *read = Body::Sweep { to, keep };
    Some(())
}

#[tactic(auto, unfolding(crate::specs::Reading::payment_at))]
fn payment(fields: &mut Fields) -> Option<Payment>
    ensures { option_map (λ p. (p, fields.new)) result ≡ payment_at fields.old }
{
    let to = fields.u64()?;
    let amount = fields.u64()?;
    Some(Payment { to, amount })
}

// Puts so many payments into a list of none.
fn payments(count: usize, fields: &mut Fields, read: &mut Payments) -> Option<()>
    requires few { count ≤ 6 }
    requires none { read.old ≡ [] }
    ensures { option_map (λ _. (read.new, fields.new)) result ≡ list_at payment_at count fields.old }
{
    for _ in 0..count {
        let entry = payment(fields)?;
        read.push(entry.to, entry.amount);
    }
    Some(())
}

#[tactic(auto, unfolding(crate::specs::Reading::split_at))]
fn split(fields: &mut Fields, read: &mut Body) -> Option<()>
    ensures { option_map (λ _. (read.new, fields.new)) result ≡ split_at fields.old }
{
    let count = fields.u8()? as usize;
    if count == 0 || count > MOST_PAYMENTS {
        return None;
    }
    let mut paid = Payments::none();
    payments(count, fields, &mut paid)?;
    if !paid.is_ascending() {
        return None;
    }
    *read = Body::Split { payments: paid };
    Some(())
}

#[inline(always)]
#[tactic(auto, unfolding(crate::specs::Reading::body_at))]
fn body(kind: u8, fields: &mut Fields, read: &mut Body) -> Option<()>
    ensures { option_map (λ _. (read.new, fields.new)) result ≡ body_at kind fields.old }
{
    match kind {
        1 => pay(fields, read),
        2 => pay_if(fields, read),
        3 => sweep(fields, read),
        4 => split(fields, read),
        _ => None,
    }
}

// Reads the parts of the transaction that the bytes encode, all of the bytes. They are filled where they lie: a
// transaction that is returned would be copied right after its words were written, and the copy would wait for them.
#[tactic(auto, unfolding(crate::specs::Reading::transaction_of))]
pub(crate) fn read_parts(
    bytes: &[u8],
    declared: &mut Declarations,
    seq: &mut u64,
    from: &mut u64,
    read: &mut Body,
) -> Option<()>
    requires { declared.old ≡ [] }
    ensures { option_map (λ _. transaction declared.new seq.new from.new read.new) result
        ≡ transaction_of bytes.now }
{
    let mut fields = Fields::new(bytes);
    let kind = fields.u8()?;
    declarations(&mut fields, declared)?;
    *seq = fields.u64()?;
    *from = fields.u64()?;
    body(kind, &mut fields, read)?;
    if !fields.rest().is_empty() {
        return None;
    }
    // What was read has been judged: `Tx::new` would do it again.
    if read.pays(*from) {
        return None;
    }
    Some(())
}
