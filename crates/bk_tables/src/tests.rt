//! Rows as text.

use crate::batches::BatchRow;
use crate::line::Line;
use crate::listing::read_accounts;
use crate::payment::{Asked, Kind, PaymentRow, make_row};
use crate::posting::{Posting, make_row as make_posting};
use crate::text::batches_text;
use bk_cert::CertRef;
use bk_digest::Digest32;
use bk_frames::Counted;
use bk_results::LinesFault;
use bk_rules::{Account, Status};
use bk_views::{Entry, Role};
use std::test::Fail;

// SHA-256 of no bytes, from FIPS 180-4's examples.
const TABLE: &[u8] = b"batch,digest,round,author,anchor,transactions\n\
    0,e3b0c44298fc1c149afbf4c8996fb92427ae41e4649b934ca495991b7852b855,1,3,3,void\n\
    1,e3b0c44298fc1c149afbf4c8996fb92427ae41e4649b934ca495991b7852b855,1000000,127,4294967295,65535\n";

#[test]
fn batches_are_rows(rt: HostRuntime) -> Result<(), Fail> {
    let digest = Digest32::of(b"");
    let first = BatchRow {
        digest,
        cert: CertRef {
            round: 1,
            author: 3,
        },
        anchor: 3,
        count: None,
    };
    let second = BatchRow {
        cert: CertRef {
            round: 1_000_000,
            author: 127,
        },
        anchor: u32::MAX,
        count: Some(65_535),
        ..first
    };
    let text = batches_text(rt.alloc(), &[first, second])?;
    assert!(rt; text.as_slice() == TABLE);
    Ok(())
}

#[test]
fn payments_are_rows(rt: HostRuntime) -> Result<(), Fail> {
    let mut line = Line::new(rt.alloc())?;
    let mut row = PaymentRow {
        place: 7,
        batch: 2,
        item: 0,
        asked: Some(Asked {
            kind: Kind::PayIf,
            from: u64::MAX,
            seq: 0,
            to: 12,
            amount: Some(500),
            guard: Some(9),
            min: Some(10),
            keep: None,
        }),
        status: Status::Ok,
        paid: 500,
    };
    make_row(&mut line, &row);
    assert!(rt;
        line.as_slice() == b"7,2,0,payif,18446744073709551615,0,12,500,9,10,,0,500\n".as_slice()
    );
    row.asked = None;
    row.status = Status::Malformed;
    row.paid = 0;
    make_row(&mut line, &row);
    assert!(rt; line.as_slice() == b"7,2,0,malformed,,,,,,,,1,0\n".as_slice());
    Ok(())
}

#[test]
fn postings_are_rows(rt: HostRuntime) -> Result<(), Fail> {
    let mut line = Line::new(rt.alloc())?;
    let mut row = Posting {
        account: u64::MAX,
        entry: Entry {
            place: 12,
            status: Status::Ok,
            role: Role::Out,
            amount: 500,
            after: Some(Account { balance: 0, seq: 8 }),
        },
    };
    make_posting(&mut line, &row);
    assert!(rt; line.as_slice() == b"12,0,18446744073709551615,out,500,0,8\n".as_slice());
    row.entry.role = Role::In;
    row.entry.status = Status::Unknown;
    row.entry.amount = 0;
    row.entry.after = None;
    make_posting(&mut line, &row);
    assert!(rt; line.as_slice() == b"12,3,18446744073709551615,in,0,,\n".as_slice());
    Ok(())
}

#[test]
fn lists_are_read(rt: HostRuntime) -> Result<(), Fail> {
    let text = b"# three accounts\n\n7\n18446744073709551615\n7\n3".as_slice();
    let accounts = read_accounts(rt.alloc(), &mut Counted::new(text))?;
    assert!(rt; accounts.has(3) && accounts.has(7) && accounts.has(u64::MAX));
    assert!(rt; !accounts.has(5) && !accounts.has(0));
    Ok(())
}

#[test]
fn faults_of_lists_have_lines(rt: HostRuntime) {
    let faults: [(&[u8], u32); 5] = [
        (b"07\n", 1),
        (b"7\n 7", 2),
        (b"7\r\n", 1),
        (b"#\n\n18446744073709551616\n-\n", 3),
        (b"1\n2\n3x", 3),
    ];
    for (text, line) in faults {
        let found = read_accounts(rt.alloc(), &mut Counted::new(text));
        assert!(rt; found.err() == Some(LinesFault::Line { line }));
    }
}
