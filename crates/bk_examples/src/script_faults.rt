//! Scripts with one fault each, and the line of it. Faults of scripts that are examples too are left out.

use crate::made::has_fault;
use bk_script::ScriptCode;
use bk_trial_kit::Tally;

const WORDS: [(&str, u64); 8] = [
    ("# caf\u{e9}\nmembers 1", 1),
    ("members", 1),
    ("members  1", 1),
    ("members 1 ", 1),
    (" members 1", 1),
    ("version 1\nmembers 2 1,1", 2),
    ("members 1\nbatch b\nsplit 1 0 2", 3),
    ("Members 1", 1),
];

const PLACES: [(&str, u64); 12] = [
    ("\n", 2),
    ("#", 2),
    ("version 2", 2),
    ("version 2\n", 2),
    ("account 1 5", 1),
    ("batch b", 1),
    ("members 1\nmembers x", 2),
    ("members 1\nversion 1", 2),
    ("version 1\nversion 1", 2),
    ("members 1\ncert a 1 0 - - 0\naccount 1 5", 3),
    ("members 1\npay 1 1 x 0", 2),
    ("members 1\nbatch b\ncert a 1 0 - - 0\nraw -", 4),
];

// In the last of these the carriage return belongs to its word, which is then no number.
const NUMBERS: [(&str, u64); 15] = [
    ("members 04", 1),
    ("members -1", 1),
    ("members +1", 1),
    ("members 1x", 1),
    ("version one", 1),
    ("members 1\naccount 1 18446744073709551616", 2),
    ("members 1\nbatch b\nraw 0", 3),
    ("members 1\nbatch b\nraw AA", 3),
    ("members 1\nbatch b\nraw 0g", 3),
    ("members 1\nbatch b\npay 1 1 x 0", 3),
    ("members 1\nbatch b\ncert a 1 0 b, - 0", 3),
    ("members 1\ncert A 1 0 - - 0,,1", 2),
    ("members 1\ncert A 1 0 - - x", 2),
    ("members 1\nagain none ,", 2),
    ("members 1\r\n", 1),
];

const NAMES: [(&str, u64); 11] = [
    ("members 1\nbatch B", 2),
    ("members 1\nbatch 1b", 2),
    ("members 1\nbatch b_", 2),
    ("members 1\nbatch aaaaaaaaaaaaaaaaaaaaaaaaaaaaaaaaa", 2),
    ("members 1\ncert a 1 0 - - 0\ncert a 1 0 - - 0", 3),
    ("members 1\ncert a 1 0 b - 0", 2),
    ("members 1\nbatch b\ncert a 1 0 - b 200", 3),
    ("members 1\ncert a 1 0 - a 0", 2),
    ("members 1\nbatch b\nagain b 0", 3),
    ("members 1\ncert a 1 256 B - 0", 2),
    (
        "members 1\ncert a 1 0 - ABABABABABABABABABABABABABABABABABABABABABABABABABABABABABABABAB 0",
        2,
    ),
];

// In the last of these a certificate is named twice: by its name, and by its id, as the certificate of round 1 by member 0
// without batches and parents.
const RANGES: [(&str, u64); 16] = [
    ("members 0", 1),
    ("version 0\nmembers 1", 1),
    ("version 2\nmembers 4 5,1,1,1,1", 2),
    ("version 2\nmembers 4 5,1,1,4294967296", 2),
    ("version 2\nmembers 4 -", 2),
    ("members 1\naccount 1 9223372036854775808", 2),
    ("members 1\naccount 1 9223372036854775807\naccount 2 1", 3),
    ("members 1\naccount 1 0 9223372036854775808", 2),
    ("members 1\naccount 1 5\naccount 1 5", 3),
    ("members 1\nbatch b\nsplit 1 0 2 5 2 5", 3),
    ("members 1\ncert a 1 0 - - 128", 2),
    ("members 1\ncert a 1 256 - - 0", 2),
    ("members 1\ncert a 4294967296 0 - - 0", 2),
    ("members 1\ncert a 1 0 - - 0\ncert c 2 0 - a,a 0", 3),
    ("members 1\ncert a 1 0 - - 0\nagain a 128", 3),
    (
        "members 1\ncert a 1 0 - - 0\ncert c 2 0 - a,afb203aeddb54bba05c780118d206fa2d2a6dc339c542173499c03db2eb8b1c9 0",
        3,
    ),
];

// Scripts with a fault of this kind.
fn try_code<R: AllocGlobal + Eprint>(
    rt: &R,
    code: ScriptCode,
    scripts: &[(&str, u64)],
    tally: &mut Tally,
) {
    for (text, line) in scripts {
        let is_right = has_fault(rt.alloc(), text.as_bytes(), *line, code);
        tally.note(rt, text, is_right);
    }
}

/// All of them.
pub(crate) fn try_script_faults<R: AllocGlobal + Eprint>(rt: &R, tally: &mut Tally) {
    try_code(rt, ScriptCode::Word, &WORDS, tally);
    try_code(rt, ScriptCode::Place, &PLACES, tally);
    try_code(rt, ScriptCode::Number, &NUMBERS, tally);
    try_code(rt, ScriptCode::Name, &NAMES, tally);
    try_code(rt, ScriptCode::Range, &RANGES, tally);
    let is_right = has_fault(rt.alloc(), b"members 1\n\xff", 2, ScriptCode::Word);
    tally.note(rt, "a byte that is not ASCII", is_right);
}
