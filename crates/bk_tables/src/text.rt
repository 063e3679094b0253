//! The rows of batches as text.

ghost use Rattle.std.specs.Prelude.{◌≡◌, ◌+◌, ◌≤◌, ◌∷◌, ◌++◌, [], length, IfOk, OnOk};
ghost use Rattle.hex.specs.Hex.{encode_lower};
ghost use Rattle.bk_tables.specs.Batches.{batch_fields, batches_fields, batches_text, count_field};
ghost use Rattle.bk_tables.specs.Csv.{row_text, table_text};

use crate::batches::BatchRow;
use crate::line::Line;
use bk_digest::Digest32;
use std::alloc::{AllocError, Global};

// The header, a row.
const HEADER: &[u8] = b"batch,digest,round,author,anchor,transactions\n";

// Puts how many transactions a batch holds, and ends the row.
fn put_count(line: &mut Line, count: Option<u16>)
    requires { length line.old + 21 ≤ 512 }
    ensures text { line.new ≡ line.old ++ (count_field count ++ 10 ∷ []) }
    ensures size { length line.new ≤ length line.old + 21 }
{
    match count {
        Some(count) => line.put_number(u64::from(count), b'\n'),
        None => line.put(b"void\n"),
    }
}

// Puts a digest and a comma.
fn put_digest(line: &mut Line, digest: &Digest32)
    requires { length line.old + 65 ≤ 512 }
    ensures text { line.new ≡ line.old ++ (encode_lower digest.now ++ 44 ∷ []) }
    ensures size { length line.new ≤ length line.old + 65 }
{
    let mut digits = [0u8; 64];
    // There is room for all 64 digits.
    let _ = hex::encode_to_slice(digest.as_bytes(), &mut digits);
    line.put(&digits);
    line.put(b",");
}

// Makes the row of a batch.
fn make_row(line: &mut Line, index: u64, row: &BatchRow)
    ensures text { line.new ≡ row_text (batch_fields index row.now) }
    ensures size { length line.new ≤ 170 }
{
    let BatchRow {
        digest,
        cert,
        anchor,
        count,
    } = *row;
    line.clear();
    line.put_number(index, b',');
    put_digest(line, &digest);
    line.put_number(u64::from(cert.round), b',');
    line.put_number(u64::from(cert.author), b',');
    line.put_number(u64::from(anchor), b',');
    put_count(line, count);
}

// Adds a row for each batch, numbered from 0.
fn push_rows(text: &mut Vec<u8>, line: &mut Line, rows: &[BatchRow]) -> Result<(), AllocError>
    ensures { OnOk result (text.new.items
        ≡ text.old.items ++ table_text (batches_fields 0 rows.now)) }
{
    for (index, row) in rows.iter().enumerate() {
        make_row(line, index as u64, row);
        text.extend_from_slice(line.as_slice())?;
    }
    Ok(())
}

/// The table of these batches.
pub(crate) fn batches_text(alloc: Global, rows: &[BatchRow]) -> Result<Vec<u8>, AllocError>
    ensures { IfOk result (λ text. text.items ≡ batches_text rows.now) }
{
    let mut line = Line::new(alloc)?;
    let mut text = HEADER.to_vec(alloc)?;
    push_rows(&mut text, &mut line, rows)?;
    Ok(text)
}
