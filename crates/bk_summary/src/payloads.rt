//! The digests of the payloads that a feed begins with. A payload is the one encoding of what is read of it, so that
//! it is made again here.

ghost use Rattle.std.specs.Prelude.{◌≡◌, ◌++◌, ◌<◌, ◌^◌, length, OnOk, IfOk};
ghost use Rattle.std.specs.List.{concat, flat_map};
ghost use Rattle.sha2.specs.Sha256.{sha256};
ghost use Rattle.bk_base.specs.Genesis.{genesis_text, row_text};
ghost use Rattle.bk_committee.specs.Payload.{committee_bytes, weights_bytes};

use bk_base::{Row, Version};
use bk_committee::Committee;
use bk_digest::Digest32;
use std::alloc::{AllocError, Global};

// Adds the key of each member.
fn push_keys(out: &mut Vec<u8>, committee: &Committee) -> Result<(), AllocError>
    ensures { OnOk result (out.new.items ≡ out.old.items ++ concat committee.now.keys) }
{
    for member in 0..committee.n() {
        out.extend_from_slice(committee.key(member))?;
    }
    Ok(())
}

// Adds the weight of each member.
fn push_each(out: &mut Vec<u8>, weights: &[u32]) -> Result<(), AllocError>
    ensures { OnOk result (out.new.items ≡ out.old.items ++ weights_bytes Version.Two weights.now) }
{
    for weight in weights {
        out.extend_from_slice(&weight.to_be_bytes())?;
    }
    Ok(())
}

// Adds them in version Two.
fn push_weights(out: &mut Vec<u8>, committee: &Committee) -> Result<(), AllocError>
    ensures { OnOk result (out.new.items
        ≡ out.old.items ++ weights_bytes committee.now.version committee.now.weights) }
{
    match committee.version() {
        Version::One => Ok(()),
        Version::Two => push_each(out, committee.weights()),
    }
}

/// SHA-256 of the payload of a committee.
pub fn committee_digest(alloc: Global, committee: &Committee) -> Result<Digest32, AllocError>
    ensures { IfOk result (λ d. d ≡ sha256 (committee_bytes committee.now)) }
{
    let mut payload = Vec::new(alloc);
    payload.push(committee.n() as u8)?;
    push_keys(&mut payload, committee)?;
    push_weights(&mut payload, committee)?;
    Ok(Digest32::of(&payload))
}

// Adds a row: id, balance and sequence number.
fn push_row(out: &mut Vec<u8>, row: &Row) -> Result<(), AllocError>
    ensures { OnOk result (out.new.items ≡ out.old.items ++ row_text row.now) }
{
    out.extend_from_slice(&row.id.to_be_bytes())?;
    out.extend_from_slice(&row.balance.to_be_bytes())?;
    out.extend_from_slice(&row.seq.to_be_bytes())
}

// Adds all rows.
fn push_rows(out: &mut Vec<u8>, rows: &[Row]) -> Result<(), AllocError>
    ensures { OnOk result (out.new.items ≡ out.old.items ++ flat_map row_text rows.now) }
{
    for row in rows {
        push_row(out, row)?;
    }
    Ok(())
}

/// SHA-256 of the payload of opening accounts.
pub(crate) fn genesis_digest(alloc: Global, rows: &[Row]) -> Result<Digest32, AllocError>
    requires { length rows.now < 2 ^ 32 }
    ensures { IfOk result (λ d. d ≡ sha256 (genesis_text rows.now)) }
{
    let mut payload = Vec::new(alloc);
    payload.extend_from_slice(&(rows.len() as u32).to_be_bytes())?;
    push_rows(&mut payload, rows)?;
    Ok(Digest32::of(&payload))
}
