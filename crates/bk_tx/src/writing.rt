ghost use Rattle.std.specs.Prelude.{◌≡◌, ◌≤◌, ◌∷◌, ◌++◌, length, OnOk};
ghost use Rattle.std.specs.List.{flat_map};
ghost use Rattle.bk_tx.specs.Spelling.{wide, declared_text, payment_text, body_text};

use crate::body::Body;
use crate::declared::Declarations;
use crate::payments::Payment;
use std::alloc::AllocError;

// Writes eight bytes at the end.
pub fn put_u64(out: &mut Vec<u8>, n: u64) -> Result<(), AllocError>
    ensures { OnOk result (out.new.items ≡ out.old.items ++ wide n) }
{
    out.extend_from_slice(&n.to_be_bytes())
}

// Writes a count and the declared accounts at the end.
pub fn put_declared(out: &mut Vec<u8>, declared: &Declarations) -> Result<(), AllocError>
    ensures { OnOk result (out.new.items ≡ out.old.items
        ++ length declared.now ∷ flat_map declared_text declared.now) }
{
    out.push(declared.len() as u8)?;
    for k in 0..declared.len() {
        let entry = declared.get(k);
        out.push(u8::from(entry.writable))?;
        put_u64(out, entry.id)?;
    }
    Ok(())
}

// Writes the receiver and the amount at the end.
fn put_payment(out: &mut Vec<u8>, payment: &Payment) -> Result<(), AllocError>
    ensures { OnOk result (out.new.items ≡ out.old.items ++ payment_text payment.now) }
{
    put_u64(out, payment.to)?;
    put_u64(out, payment.amount)
}

// Writes a count and the payments at the end.
fn put_payments(out: &mut Vec<u8>, payments: &[Payment]) -> Result<(), AllocError>
    requires { length payments.now ≤ 6 }
    ensures { OnOk result (out.new.items ≡ out.old.items
        ++ length payments.now ∷ flat_map payment_text payments.now) }
{
    out.push(payments.len() as u8)?;
    for p in payments {
        put_payment(out, p)?;
    }
    Ok(())
}

// Writes the fields of a body at the end.
pub fn put_body(out: &mut Vec<u8>, body: &Body) -> Result<(), AllocError>
    ensures { OnOk result (out.new.items ≡ out.old.items ++ body_text body.now) }
{
    match body {
        Body::Pay { to, amount } => {
            put_u64(out, *to)?;
            put_u64(out, *amount)?;
            Ok(())
        }
        Body::PayIf {
            to,
            amount,
            guard,
            min,
        } => {
            put_u64(out, *to)?;
            put_u64(out, *amount)?;
            put_u64(out, *guard)?;
            put_u64(out, *min)?;
            Ok(())
        }
        Body::Sweep { to, keep } => {
            put_u64(out, *to)?;
            put_u64(out, *keep)?;
            Ok(())
        }
        Body::Split { payments } => put_payments(out, payments.as_slice()),
    }
}
