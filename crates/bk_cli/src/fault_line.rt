//! The line on standard error that reports a fault.

ghost use Rattle.std.specs.Prelude.{◌≡◌, ◌+◌, ◌<◌, ◌++◌, codes};
ghost use Rattle.std.specs.List.{sum_by};
ghost use Rattle.bk_frames.specs.Device.{CanBeUsed};
ghost use Rattle.bk_cli.specs.FaultLines.{Reports, compare_text, differ_text, line_of, list_text};
ghost use Rattle.bk_cli.specs.FaultLines.{replay_text, script_text, twins_text, unread_text};
ghost use Rattle.bk_cli.specs.Pieces.{room, said};

use crate::job_fault::JobFault;
use crate::line::Piece::{Digest, Number, Text};
use crate::line::{Piece, ShortLine, short_line};
use crate::list_fault::ListFault;
use bk_digest::Digest32;
use bk_frames::{Sink, push_all};
use bk_results::{CompareStop, Differ, Fault, LinesFault, ScriptFault};

// The line of these pieces.
fn line(pieces: &[Piece<'_>]) -> ShortLine
    requires { sum_by room pieces.now < 192 }
    ensures { result.items ≡ said pieces.now ++ codes "\n" }
{
    short_line(b"", pieces)
}

// What reports an equivocation.
fn twins_line<'a>(place: (u32, u8), first: &'a Digest32, second: &'a Digest32) -> ShortLine
    ensures { result.items
        ≡ twins_text place.0 place.1 first.now second.now ++ codes "\n" }
{
    let (round, author) = place;
    line(&[
        Text(b"equivocation"),
        Number(u64::from(round)),
        Number(u64::from(author)),
        Digest(first),
        Digest(second),
    ])
}

// What reports a feed that was not replayed.
fn replay_line(fault: &Fault) -> ShortLine
    ensures { result.items ≡ replay_text fault.now ++ codes "\n" }
{
    match fault {
        Fault::Feed(found) => line(&[
            Text(b"feed fault"),
            Number(u64::from(found.code.number())),
            Text(b" at"),
            Number(found.offset),
        ]),
        Fault::Collision { id } => line(&[Text(b"collision"), Digest(id)]),
        Fault::Equivocation {
            round,
            author,
            first,
            second,
        } => twins_line((*round, *author), first, second),
        Fault::Unfinished { place } => line(&[Text(b"unfinished"), Number(u64::from(*place))]),
        Fault::Write { .. } => line(&[Text(b"write failed")]),
        Fault::Memory => line(&[Text(b"memory")]),
    }
}

// What reports a fault of a text.
fn script_line(fault: &ScriptFault) -> ShortLine
    ensures { result.items ≡ script_text fault.now ++ codes "\n" }
{
    match fault {
        ScriptFault::Script { line: number, code } => line(&[
            Text(b"script fault"),
            Number(u64::from(code.number())),
            Text(b" at line"),
            Number(*number),
        ]),
        ScriptFault::Read => line(&[Text(b"read failed")]),
        ScriptFault::Write { .. } => line(&[Text(b"write failed")]),
        ScriptFault::Memory => line(&[Text(b"memory")]),
    }
}

// What reports a list of events that was not read.
fn unread_line(fault: &LinesFault) -> ShortLine
    ensures { result.items ≡ unread_text fault.now ++ codes "\n" }
{
    match fault {
        LinesFault::Line { line: number } => line(&[
            Text(b"events fault at line"),
            Number(u64::from(*number)),
        ]),
        LinesFault::Read => line(&[Text(b"read failed")]),
        LinesFault::Memory => line(&[Text(b"memory")]),
    }
}

// What reports a list of events.
fn list_line(fault: &ListFault) -> ShortLine
    ensures { result.items ≡ list_text fault.now ++ codes "\n" }
{
    match fault {
        ListFault::Unread(fault) => unread_line(fault),
        ListFault::Refused { line: number, code } => line(&[
            Text(b"event"),
            Number(u64::from(*number)),
            Text(b" refused"),
            Number(u64::from(code.code())),
        ]),
        ListFault::Unfinished { place } => line(&[Text(b"unfinished"), Number(u64::from(*place))]),
    }
}

// What reports two feeds that differ.
fn differ_line(differ: &Differ) -> ShortLine
    ensures { result.items ≡ differ_text differ.now ++ codes "\n" }
{
    match differ {
        Differ::Setup { .. } => line(&[Text(b"differ setup")]),
        Differ::Collision { id } => line(&[Text(b"collision"), Digest(id)]),
        Differ::Twins {
            round,
            author,
            first,
            second,
        } => twins_line((*round, *author), first, second),
        Differ::Memory => line(&[Text(b"memory")]),
    }
}

// What reports two feeds that do not agree.
fn compare_line(stop: &CompareStop) -> ShortLine
    ensures { result.items ≡ compare_text stop.now ++ codes "\n" }
{
    match stop {
        CompareStop::First(fault) | CompareStop::Second(fault) => replay_line(fault),
        CompareStop::Differ(differ) => differ_line(differ),
    }
}

/// The line of a fault.
pub(crate) fn fault_line(fault: &JobFault) -> ShortLine
    ensures { result.items ≡ line_of fault.now }
{
    match fault {
        JobFault::Replay(fault) => replay_line(fault),
        JobFault::Text(fault) => script_line(fault),
        JobFault::Events(fault) => list_line(fault),
        JobFault::Accounts { line: number } => line(&[
            Text(b"accounts fault at line"),
            Number(u64::from(*number)),
        ]),
        JobFault::Links { line: number } => line(&[
            Text(b"links fault at line"),
            Number(u64::from(*number)),
        ]),
        JobFault::Compared(stop) => compare_line(stop),
        JobFault::AbsentAccount { id, .. } => line(&[Text(b"absent account"), Number(*id)]),
        JobFault::AbsentPlace { place, .. } => line(&[
            Text(b"absent place"),
            Number(u64::from(*place)),
        ]),
    }
}

/// Reports a fault in one line. A sink that fails is ignored: there is nowhere left to report it.
pub fn report<E: Sink>(fault: &JobFault, err: &mut E)
    requires { CanBeUsed (E.state err.old) }
    ensures { Reports (line_of fault.now) (E.state err.old) (E.state err.new) }
{
    let line = fault_line(fault);
    // A line that cannot be written is reported nowhere.
    let _ = push_all(err, line.as_slice());
}
