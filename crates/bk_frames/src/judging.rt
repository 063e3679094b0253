//! The tests of a frame: its kind, its length and its payload.

ghost use Rattle.std.specs.Prelude.{◌≡◌, ◌≢◌, ℕ, ◌+◌, ◌≤◌, Some, None, OnOk, IfOk, IfErr, IsTrue, false};
ghost use Rattle.bk_frames.specs.declared.fault.FaultCode.TheVariants as code;
ghost use Rattle.bk_base.specs.Genesis.{rows_of};
ghost use Rattle.bk_base.specs.Feed.{stands_at, kind_number};
ghost use Rattle.bk_frames.specs.FirstFault.{kind_fault, length_fault, payload_fault};
ghost use Rattle.bk_frames.specs.Pulling.{ByCode};

use crate::fault::FaultCode;
use bk_base::{Kind, MOST_FEED, MOST_PAYLOAD, Row, Version, is_committee_payload, read_genesis};
use std::alloc::Global;

// The kind of this number, where a frame of it may be at this place.
pub(crate) fn kind_at(index: usize, number: u8) -> Result<Kind, FaultCode>
    ensures ok { IfOk result (λ k. (kind_fault index number ≡ None) × (kind_number k ≡ number)
        × IsTrue (stands_at index k)) }
    ensures err { IfErr result (λ e. ByCode e ⊥ ⊥ (kind_fault index number ≡ Some e)) }
    ensures no_cut { IfErr result (λ e. e ≢ code.Truncated) }
{
    match number {
        1 if index == 0 => Ok(Kind::Committee),
        2 if index == 1 => Ok(Kind::Genesis),
        3 if index > 1 => Ok(Kind::Certificate),
        4 if index > 1 => Ok(Kind::Batch),
        1..=4 if index == 0 => Err(FaultCode::Committee),
        1..=4 if index == 1 => Err(FaultCode::Genesis),
        1..=4 => Err(FaultCode::Extra),
        _ => Err(FaultCode::Kind),
    }
}

// Whether a payload of this length may be in a frame at this offset.
pub(crate) fn length_fits(offset: u64, len: u32) -> bool
    requires { offset ≤ MOST_FEED }
    ensures fits { IsTrue result → length_fault offset len ≡ None }
    ensures fault { result ≡ false → length_fault offset len ≡ Some code.Length }
{
    len <= MOST_PAYLOAD && offset + 5 + u64::from(len) <= MOST_FEED
}

// Judges the payload of the frame with this index, and keeps the rows of a genesis.
pub(crate) fn judge(
    alloc: Global,
    version: Version,
    index: usize,
    payload: &[u8],
    genesis: &mut Vec<Row>,
) -> Result<(), FaultCode>
    ensures good { OnOk result (payload_fault version index payload.now ≡ None) }
    ensures rows { OnOk result (index ≡ 1 → rows_of payload.now ≡ Some genesis.new.items) }
    ensures kept { index ≢ 1 → genesis.new.items ≡ genesis.old.items }
    ensures err { IfErr result (λ e. ByCode e ⊥ (Unit {0})
        (payload_fault version index payload.now ≡ Some e)) }
    ensures no_cut { IfErr result (λ e. e ≢ code.Truncated) }
{
    match index {
        0 if !is_committee_payload(version, payload) => Err(FaultCode::Committee),
        1 => match read_genesis(alloc, payload)? {
            Some(rows) => {
                *genesis = rows;
                Ok(())
            }
            None => Err(FaultCode::Genesis),
        },
        _ => Ok(()),
    }
}
