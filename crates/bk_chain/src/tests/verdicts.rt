use super::{ChainEnd, Fail, ONES, THREES, TWOS, ZEROS, expect, line};

const WHOLE: &str = " accounts 3 money 100 transactions 7 whole";

const SHORT: &str = " accounts 0 money 0 transactions 0 short";

#[test]
fn accepts_a_chain(rt: HostRuntime) -> Result<(), Fail> {
    let alloc = rt.alloc();
    let first = line(alloc, ONES, TWOS, WHOLE)?;
    let second = line(
        alloc,
        TWOS,
        THREES,
        " accounts 4294967295 money 9223372036854775807 transactions 4294967295 whole",
    )?;
    let mut text = String::new(alloc);
    writeln!(text, "{first}")?;
    writeln!(text, "{second}")?;
    let mut shown = String::new(alloc);
    write!(
        shown,
        "chain good\nfeeds 2\nopening {ONES}\nclosing {THREES}\ntransactions 4294967302\n"
    )?;
    expect(&rt, alloc, &text, ChainEnd::Whole, &shown);
    Ok(())
}

#[test]
fn accepts_one_short_line_without_line_feed(rt: HostRuntime) -> Result<(), Fail> {
    let alloc = rt.alloc();
    let text = line(alloc, ONES, ONES, SHORT)?;
    let mut shown = String::new(alloc);
    write!(
        shown,
        "chain good\nfeeds 1\nopening {ONES}\nclosing {ONES}\ntransactions 0\n"
    )?;
    expect(&rt, alloc, &text, ChainEnd::Short, &shown);
    Ok(())
}

#[test]
fn names_the_first_break(rt: HostRuntime) -> Result<(), Fail> {
    let alloc = rt.alloc();
    let whole = line(alloc, ONES, ONES, WHOLE)?;
    let short = line(alloc, ONES, ONES, SHORT)?;
    let mut other = String::new(alloc);
    write!(
        other,
        "link version 2 committee {ZEROS} opening {TWOS} closing {ONES}{WHOLE}"
    )?;
    let apart = line(alloc, TWOS, ONES, WHOLE)?;

    let mut text = String::new(alloc);
    writeln!(text, "{whole}\n{short}")?;
    writeln!(text, "{other}\n{apart}")?;
    let broken = "chain broken at line 3\nversion\n";
    expect(&rt, alloc, &text, ChainEnd::Broken, broken);

    let mut text = String::new(alloc);
    writeln!(text, "{short}\n{apart}")?;
    let broken = "chain broken at line 2\nshort\n";
    expect(&rt, alloc, &text, ChainEnd::Broken, broken);

    let mut text = String::new(alloc);
    writeln!(text, "{whole}\n{whole}")?;
    writeln!(text, "{apart}\n{apart}")?;
    let broken = "chain broken at line 3\nopening\n";
    expect(&rt, alloc, &text, ChainEnd::Broken, broken);
    Ok(())
}
