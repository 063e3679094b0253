//! The lines that report faults, and the exit statuses after them. Those that examples print are left out.

use bk_base::Refused;
use bk_cli::{Exit, JobFault, ListFault, report};
use bk_digest::Digest32;
use bk_frames::{Counted, FaultCode, FeedFault};
use bk_results::{Fault, LinesFault, ScriptCode, ScriptFault};
use bk_trial_kit::Tally;
use std::alloc::Global;

// Whether a fault is reported by this line, and the program ends with this status.
fn is_reported(alloc: Global, fault: &JobFault, status: u8, line: &str) -> bool {
    let mut err = Counted::new(Vec::new(alloc));
    report(fault, &mut err);
    let out = err.into_inner();
    out.as_slice() == line.as_bytes() && Exit::after(fault).number() == status
}

fn try_all<R: AllocGlobal + Eprint>(rt: &R, rows: &[(JobFault, u8, &str)], tally: &mut Tally) {
    for (fault, status, line) in rows {
        let is_right = is_reported(rt.alloc(), fault, *status, line);
        tally.note(rt, line, is_right);
    }
}

fn try_replays<R: AllocGlobal + Eprint>(rt: &R, tally: &mut Tally) {
    let memory = FeedFault {
        offset: u64::MAX,
        code: FaultCode::Memory,
    };
    let unfinished = Fault::Unfinished { place: u32::MAX };
    let rows = [
        (
            JobFault::Replay(Fault::Feed(memory)),
            4u8,
            "feed fault 9 at 18446744073709551615\n",
        ),
        (JobFault::Replay(unfinished), 4, "unfinished 4294967295\n"),
        (JobFault::Replay(Fault::Memory), 4, "memory\n"),
    ];
    try_all(rt, &rows, tally);
}

// The digests of "abc" and of nothing are those of FIPS 180-4's examples.
fn try_stops<R: AllocGlobal + Eprint>(rt: &R, tally: &mut Tally) {
    let id = Digest32::of(b"abc");
    let twins = Fault::Equivocation {
        round: u32::MAX,
        author: 255,
        first: id,
        second: Digest32::of(b""),
    };
    let rows = [
        (
            JobFault::Replay(Fault::Collision { id }),
            3u8,
            "collision ba7816bf8f01cfea414140de5dae2223b00361a396177a9cb410ff61f20015ad\n",
        ),
        (
            JobFault::Replay(twins),
            3,
            "equivocation 4294967295 255 ba7816bf8f01cfea414140de5dae2223b00361a396177a9cb410ff61f20015ad e3b0c44298fc1c149afbf4c8996fb92427ae41e4649b934ca495991b7852b855\n",
        ),
    ];
    try_all(rt, &rows, tally);
}

fn try_texts<R: AllocGlobal + Eprint>(rt: &R, tally: &mut Tally) {
    let fault = ScriptFault::Script {
        line: u64::MAX,
        code: ScriptCode::Range,
    };
    let rows = [
        (
            JobFault::Text(fault),
            2u8,
            "script fault 5 at line 18446744073709551615\n",
        ),
        (JobFault::Text(ScriptFault::Memory), 4, "memory\n"),
    ];
    try_all(rt, &rows, tally);
}

// A list of events that is not read.
fn unread(fault: LinesFault) -> JobFault {
    JobFault::Events(ListFault::Unread(fault))
}

fn try_events<R: AllocGlobal + Eprint>(rt: &R, tally: &mut Tally) {
    let line = u32::MAX;
    let code = Refused::OutOfTurn;
    let refused = ListFault::Refused { line, code };
    let unfinished = ListFault::Unfinished { place: u32::MAX };
    let rows = [
        (
            unread(LinesFault::Line { line }),
            2u8,
            "events fault at line 4294967295\n",
        ),
        (unread(LinesFault::Memory), 4, "memory\n"),
        (JobFault::Events(refused), 2, "event 4294967295 refused 5\n"),
        (JobFault::Events(unfinished), 4, "unfinished 4294967295\n"),
    ];
    try_all(rt, &rows, tally);
}

/// All of them.
pub(crate) fn try_faults<R: AllocGlobal + Eprint>(rt: &R, tally: &mut Tally) {
    try_replays(rt, tally);
    try_stops(rt, tally);
    try_texts(rt, tally);
    try_events(rt, tally);
}
