//! Lists of events: all numbers, what is skipped, and lines of other forms.

use anyhow::Result;
use bk_frames::Counted;
use bk_script::{Events, LinesFault, read_events};
use bk_steps::Event;
use bk_trial_kit::Tally;
use std::alloc::Global;

fn read(alloc: Global, text: &[u8]) -> Result<Events, LinesFault> {
    read_events(alloc, &mut Counted::new(text))
}

/// Whether a list has a fault in this line.
pub(crate) fn has_lines_fault(alloc: Global, text: &[u8], line: u32) -> bool {
    read(alloc, text).err() == Some(LinesFault::Line { line })
}

// Whether a list has these events, in these lines.
fn has_events(alloc: Global, text: &str, list: &[Event], lines: &[u32]) -> bool {
    match read(alloc, text.as_bytes()) {
        Ok(events) => events.list.as_slice() == list && events.lines.as_slice() == lines,
        Err(_) => false,
    }
}

const FINISH: Event = Event::Finish { worker: 7 };

// A claim and a read with the largest numbers.
const LARGEST: [Event; 2] = [
    Event::Claim {
        worker: u64::MAX,
        place: 0,
    },
    Event::Read {
        worker: 64,
        word: u64::MAX,
    },
];

fn try_lists<R: AllocGlobal + Eprint>(rt: &R, tally: &mut Tally) {
    let lists: [(&str, &[Event], &[u32]); 5] = [
        ("", &[], &[]),
        ("# none\n\n", &[], &[]),
        ("\n#\nfinish 7", &[FINISH], &[3]),
        ("finish 7\n\nfinish 7\n", &[FINISH, FINISH], &[1, 3]),
        (
            "claim 18446744073709551615 0\nread 64 18446744073709551615",
            &LARGEST,
            &[1, 2],
        ),
    ];
    for (text, list, lines) in lists {
        let is_right = has_events(rt.alloc(), text, list, lines);
        tally.note(rt, text, is_right);
    }
}

const WRONG: [&str; 19] = [
    "claim 0",
    "claim 0 0 0",
    "read 0",
    "write 0 1 ",
    "finish",
    "finish 0 0",
    "finish ",
    "finish  0",
    " finish 0",
    "finish 01",
    "finish +1",
    "finish -1",
    "finish x",
    "finish 18446744073709551616",
    "Finish 0",
    "take 0 0",
    "finish 0\r",
    "claim\t0 0",
    " ",
];

// A line with a fault alone, after others, and between others.
fn is_wrong(alloc: Global, line: &str) -> Result<bool> {
    if !has_lines_fault(alloc, line.as_bytes(), 1) {
        return Ok(false);
    }
    let mut text = Vec::from_slice(alloc, b"finish 0\n\n# 3\n")?;
    text.extend_from_slice(line.as_bytes())?;
    let is_last = has_lines_fault(alloc, &text, 4);
    text.extend_from_slice(b"\nread\n")?;
    Ok(is_last && has_lines_fault(alloc, &text, 4))
}

fn try_wrong<R: AllocGlobal + Eprint>(rt: &R, lines: &[&str], tally: &mut Tally) -> Result<()> {
    for line in lines {
        let is_right = is_wrong(rt.alloc(), line)?;
        tally.note(rt, line, is_right);
    }
    Ok(())
}

/// All of them.
pub(crate) fn try_events<R: AllocGlobal + Eprint>(rt: &R, tally: &mut Tally) -> Result<()> {
    try_lists(rt, tally);
    try_wrong(rt, &WRONG, tally)?;
    let is_right = has_lines_fault(rt.alloc(), b"# \xc3\xa9\nfinish 0\n", 1);
    tally.note(rt, "a comment that is not ASCII", is_right);
    let is_right = has_lines_fault(rt.alloc(), b"finish 0\nfinish \x80", 2);
    tally.note(rt, "an event that is not ASCII", is_right);
    Ok(())
}
