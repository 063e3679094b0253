//! Scripts and lists of events that are as long as they may be, or longer.
//!
//! Each begins with a comment that leaves room for this many bytes, so the lines of the rest are counted from 2.

use crate::events::has_lines_fault;
use crate::made::{has_fault, makes_empty_ledger};
use anyhow::Result;
use bk_frames::Counted;
use bk_script::{MOST_SCRIPT, ScriptCode, make, read_events};
use bk_trial_kit::Tally;
use std::alloc::Global;

// A comment that leaves room for this many bytes, and then the rest.
fn long_text(alloc: Global, room: usize, rest: &str) -> Result<Vec<u8>> {
    let mut text = vec![in alloc; b'#'; MOST_SCRIPT.saturating_sub(room).saturating_sub(1)]?;
    text.push(b'\n')?;
    text.extend_from_slice(rest.as_bytes())?;
    Ok(text)
}

// What is after the comment, and where it has a fault.
#[derive(Clone, Copy)]
struct Long {
    rest: &'static str,
    room: usize,
    line: u64,
    code: ScriptCode,
}

// The first five have a byte too many that belongs to a line, is its line feed, or begins a line. Then a line has another
// fault that is whole, or is not; and an earlier line has one.
const SCRIPTS: [Long; 8] = [
    Long {
        rest: "members 1\n#x",
        room: 11,
        line: 3,
        code: ScriptCode::Range,
    },
    Long {
        rest: "members 1\n#\n",
        room: 11,
        line: 3,
        code: ScriptCode::Range,
    },
    Long {
        rest: "members 1\n#\nx",
        room: 12,
        line: 4,
        code: ScriptCode::Range,
    },
    Long {
        rest: "members 1\n\n",
        room: 10,
        line: 3,
        code: ScriptCode::Range,
    },
    Long {
        rest: "members 1\n",
        room: 9,
        line: 2,
        code: ScriptCode::Range,
    },
    Long {
        rest: "members 1\nx\n",
        room: 11,
        line: 3,
        code: ScriptCode::Word,
    },
    Long {
        rest: "members 1\nxx",
        room: 11,
        line: 3,
        code: ScriptCode::Range,
    },
    Long {
        rest: "member 1\nxx",
        room: 10,
        line: 2,
        code: ScriptCode::Word,
    },
];

fn try_scripts<R: AllocGlobal + Eprint>(rt: &R, rows: &[Long], tally: &mut Tally) -> Result<()> {
    for long in rows {
        let text = long_text(rt.alloc(), long.room, long.rest)?;
        let is_right = has_fault(rt.alloc(), &text, long.line, long.code);
        tally.note(rt, long.rest, is_right);
    }
    Ok(())
}

// What a list of events has after the comment, for which there is this much room, and the line that has a fault.
const LISTS: [(&str, usize, u32); 7] = [
    ("finish 0\nfinish 1", 16, 3),
    ("finish 0\nfinish 1\n", 17, 3),
    ("finish 0\n#", 9, 3),
    ("finish 0\n\n", 9, 3),
    ("\n", 0, 2),
    ("finish\nfinish 1", 14, 2),
    ("finish x\n", 8, 2),
];

fn try_lists<R: AllocGlobal + Eprint>(
    rt: &R,
    rows: &[(&str, usize, u32)],
    tally: &mut Tally,
) -> Result<()> {
    for (rest, room, line) in rows {
        let text = long_text(rt.alloc(), *room, rest)?;
        let is_right = has_lines_fault(rt.alloc(), &text, *line);
        tally.note(rt, rest, is_right);
    }
    Ok(())
}

// Texts that are as long as they may be.
fn try_whole<R: AllocGlobal + Eprint>(rt: &R, tally: &mut Tally) -> Result<()> {
    let text = long_text(rt.alloc(), 12, "members 1\n#x")?;
    let is_right = text.len() == MOST_SCRIPT && makes_empty_ledger(rt.alloc(), &text);
    tally.note(rt, "the longest script", is_right);
    let text = long_text(rt.alloc(), 17, "finish 0\nfinish 1")?;
    let is_right = match read_events(rt.alloc(), &mut Counted::new(text.as_slice())) {
        Ok(events) => events.lines.as_slice() == [2u32, 3].as_slice(),
        Err(_) => false,
    };
    tally.note(rt, "the longest list of events", is_right);
    Ok(())
}

// How many bytes of a script are not read.
fn left_of(alloc: Global, text: &[u8]) -> usize {
    let mut source = Counted::new(text);
    let mut sink = Counted::new(Vec::new(alloc));
    let _fault = make(alloc, &mut source, &mut sink);
    source.into_inner().len()
}

// A script that is nine bytes too long.
fn try_reading<R: AllocGlobal + Eprint>(rt: &R, tally: &mut Tally) -> Result<()> {
    let text = long_text(rt.alloc(), 11, "members 1\n#xxxxxxxxx")?;
    let left = left_of(rt.alloc(), &text);
    tally.note(rt, "one byte more than may be is read", left == 8);
    Ok(())
}

/// All of them.
pub(crate) fn try_longest<R: AllocGlobal + Eprint>(rt: &R, tally: &mut Tally) -> Result<()> {
    try_whole(rt, tally)?;
    try_scripts(rt, &SCRIPTS, tally)?;
    try_lists(rt, &LISTS, tally)?;
    try_reading(rt, tally)
}
