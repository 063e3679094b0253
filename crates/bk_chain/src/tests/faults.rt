use super::{
    Abort, AllocError, ChainFault, Counted, Fail, Fuse, Global, MOST_LINKS, ONES, TWOS, ZEROS,
    check, check_chain, expect_fault, line,
};

// What may come after the digests of a line, and what may not.
const BAD: [&str; 12] = [
    " accounts 03 money 100 transactions 7 whole",
    " accounts 3 money 100 transactions 07 whole",
    " accounts 3 money 100 transactions 7 whole ",
    " accounts 3 money 100 transactions 7 whole\r",
    " accounts 3 money 100  transactions 7 whole",
    " accounts 3 money 100 transactions 7 Whole",
    " accounts 3 money 100 transactions 7",
    " accounts 4294967296 money 100 transactions 7 whole",
    " accounts 3 money 9223372036854775808 transactions 7 whole",
    " accounts 3 money 100 transactions 4294967296 whole",
    " accounts +3 money 100 transactions 7 whole",
    " accounts  money 100 transactions 7 whole",
];

const GOOD: &str = " accounts 3 money 100 transactions 7 whole";

#[test]
fn refuses_every_other_form(rt: HostRuntime) -> Result<(), Fail> {
    let alloc = rt.alloc();
    let good = line(alloc, ONES, TWOS, GOOD)?;
    for rest in BAD {
        let bad = line(alloc, ONES, TWOS, rest)?;
        let mut text = String::new(alloc);
        writeln!(text, "{good}\n{bad}\n{good}")?;
        expect_fault(&rt, alloc, text.as_bytes(), 2);
        expect_fault(&rt, alloc, bad.as_bytes(), 1);
    }
    let upper = line(alloc, &ONES[..63], TWOS, GOOD)?;
    expect_fault(&rt, alloc, upper.as_bytes(), 1);
    let mut version = String::new(alloc);
    write!(
        version,
        "link version 3 committee {ZEROS} opening {ONES} closing {TWOS}{GOOD}"
    )?;
    expect_fault(&rt, alloc, version.as_bytes(), 1);
    let mut capital = String::new(alloc);
    write!(
        capital,
        "link version 1 committee {ZEROS} opening {ONES} closing A{}{GOOD}",
        &TWOS[..63]
    )?;
    expect_fault(&rt, alloc, capital.as_bytes(), 1);
    Ok(())
}

#[test]
fn counts_empty_lines_as_faults(rt: HostRuntime) -> Result<(), Fail> {
    let alloc = rt.alloc();
    expect_fault(&rt, alloc, b"", 1);
    expect_fault(&rt, alloc, b"\n", 1);
    let good = line(alloc, ONES, TWOS, GOOD)?;
    let mut text = String::new(alloc);
    writeln!(text, "{good}\n")?;
    expect_fault(&rt, alloc, text.as_bytes(), 2);
    Ok(())
}

// A text of 60,336 lines of 278 bytes, 12 of 294 and a last one of this many accounts: of 16,777,216 bytes where these
// are a number of three digits, of one more where they are one of four.
fn filled(rt: &impl Abort, alloc: Global, accounts: &str) -> Result<Vec<u8>, AllocError> {
    let plain = line(alloc, ONES, ONES, GOOD)?;
    let long = line(
        alloc,
        ONES,
        ONES,
        " accounts 3 money 1000000000000000000 transactions 7 whole",
    )?;
    assert!(rt; plain.len() == 277 && long.len() == 293);
    let mut text = Vec::new(alloc);
    for at in 0..60_348 {
        let next = if at < 60_336 { &plain } else { &long };
        text.extend_from_slice(next.as_bytes())?;
        text.push(b'\n')?;
    }
    let mut rest = String::new(alloc);
    write!(rest, " accounts {accounts} money 100 transactions 7 whole")?;
    let last = line(alloc, ONES, ONES, &rest)?;
    text.extend_from_slice(last.as_bytes())?;
    text.push(b'\n')?;
    Ok(text)
}

#[test]
fn names_the_line_that_crosses_the_limit(rt: HostRuntime) -> Result<(), Fail> {
    let alloc = rt.alloc();
    let text = filled(&rt, alloc, "300")?;
    assert_eq!(rt; text.len(), MOST_LINKS);
    let (end, _) = check(alloc, &text);
    assert!(rt; end.is_ok(), "{end:?}");

    let mut text = filled(&rt, alloc, "3000")?;
    assert_eq!(rt; text.len(), MOST_LINKS + 1);
    expect_fault(&rt, alloc, &text, 60_349);
    text.truncate(MOST_LINKS);
    let (end, _) = check(alloc, &text);
    assert!(rt; end.is_ok(), "{end:?}");
    Ok(())
}

#[test]
fn names_a_fault_before_the_limit(rt: HostRuntime) -> Result<(), Fail> {
    let alloc = rt.alloc();
    let long = filled(&rt, alloc, "3000")?;
    let mut text = Vec::new(alloc);
    text.extend_from_slice(b"link\n")?;
    text.extend_from_slice(&long)?;
    expect_fault(&rt, alloc, &text, 1);
    Ok(())
}

#[test]
fn reports_failing_devices(rt: HostRuntime) -> Result<(), Fail> {
    let alloc = rt.alloc();
    let text = line(alloc, ONES, TWOS, GOOD)?;
    let mut sink = Counted::new(Vec::new(alloc));
    let mut source = Fuse::new(Counted::new(text.as_bytes()), 1);
    let end = check_chain(alloc, &mut source, &mut sink);
    assert!(rt; end == Err(ChainFault::Read), "{end:?}");
    assert!(rt; sink.into_inner().is_empty());
    let mut sink = Fuse::new(Counted::new(Vec::new(alloc)), 0);
    let end = check_chain(alloc, &mut Counted::new(text.as_bytes()), &mut sink);
    assert!(rt; end == Err(ChainFault::Write { written: 0 }), "{end:?}");
    Ok(())
}
