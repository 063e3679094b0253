//! The line that has a fault in words.

ghost use Rattle.std.specs.Prelude.{◌≡◌, ◌+◌, ◌<◌, ◌≤◌, ◌++◌, length, codes};
ghost use Rattle.std.specs.List.{sum_by};
ghost use Rattle.bk_cli.specs.Explanations.{absent_words, back_words, collision_words, compare_words, differ_words, ended};
ghost use Rattle.bk_cli.specs.Explanations.{feed_words, front_words, hint_words, line_words, list_words, refused_words};
ghost use Rattle.bk_cli.specs.Explanations.{replay_words, script_words, setup_words, text_words, twins_words, unread_words, words_of};
ghost use Rattle.bk_cli.specs.Pieces.{room, said};

use crate::job_fault::JobFault;
use crate::line::Piece::{Digest, Number, Text};
use crate::line::{Piece, ShortLine, short_line};
use crate::list_fault::ListFault;
use bk_base::Refused;
use bk_digest::Digest32;
use bk_frames::{FaultCode, FeedFault};
use bk_results::{CompareStop, Differ, Fault, LinesFault, ScriptCode, ScriptFault, SetupPart};

/// These pieces, after a colon and up to the end of their line.
pub(crate) fn words(pieces: &[Piece<'_>]) -> ShortLine
    requires { sum_by room pieces.now < 190 }
    ensures { result.items ≡ ended (said pieces.now) }
{
    short_line(b": ", pieces)
}

// What is in front of the byte at which the fault of a feed is.
fn front(code: FaultCode) -> &'static [u8]
    ensures text { result.now ≡ front_words code }
    ensures len { length result.now ≤ 35 }
{
    match code {
        FaultCode::Magic => b"what begins at byte",
        FaultCode::Read => b"reading failed in the frame at byte",
        FaultCode::Memory => b"memory ran out in the frame at byte",
        _ => b"the frame at byte",
    }
}

// And what comes after it.
fn back(code: FaultCode) -> &'static [u8]
    ensures text { result.now ≡ back_words code }
    ensures len { length result.now ≤ 60 }
{
    match code {
        FaultCode::Magic => b" is not a feed: its first bytes are neither BKF1 nor BKF2",
        FaultCode::Truncated => b" ends before its length is whole",
        FaultCode::Kind => b" has a kind that is not 1 to 4",
        FaultCode::Length => b" is too long",
        FaultCode::Committee => b" is not a committee",
        FaultCode::Genesis => b" is not a list of opening accounts",
        FaultCode::Extra => b" is a second committee or a second list of opening accounts",
        FaultCode::Read | FaultCode::Memory => b"",
    }
}

// What may be the matter where the very first bytes are wrong.
fn hint(code: FaultCode, offset: u64) -> &'static [u8]
    ensures text { result.now ≡ hint_words code offset }
    ensures len { length result.now ≤ 30 }
{
    if offset > 0 {
        return b"";
    }
    match code {
        FaultCode::Magic => b"; is it text, or compressed?",
        FaultCode::Truncated => b"; is it empty?",
        FaultCode::Read => b"; is it a directory?",
        _ => b"",
    }
}

// A fault of a feed.
fn feed_words(found: FeedFault) -> ShortLine
    ensures { result.items ≡ ended (feed_words found.code found.offset) }
{
    words(&[
        Text(front(found.code)),
        Number(found.offset),
        Text(back(found.code)),
        Text(hint(found.code, found.offset)),
    ])
}

// What two headers or batches of one digest are.
fn collision_words(id: &Digest32) -> ShortLine
    ensures { result.items ≡ ended (collision_words id.now) }
{
    words(&[
        Text(b"two headers have this id, or two batches this digest:"),
        Digest(id),
    ])
}

// Whose twins there are.
fn twins_words(round: u32, author: u8) -> ShortLine
    ensures { result.items ≡ ended (twins_words round author) }
{
    words(&[
        Text(b"member"),
        Number(u64::from(author)),
        Text(b" made two certificates for round"),
        Number(u64::from(round)),
        Text(b"; their ids are in the line above"),
    ])
}

// Why a feed was not replayed.
fn replay_words(fault: &Fault) -> ShortLine
    ensures { result.items ≡ ended (replay_words fault.now) }
{
    match fault {
        Fault::Feed(found) => feed_words(*found),
        Fault::Collision { id } => collision_words(id),
        Fault::Equivocation { round, author, .. } => twins_words(*round, *author),
        Fault::Unfinished { place } => words(&[
            Text(b"a worker took the transaction at place"),
            Number(u64::from(*place)),
            Text(b" and did not finish it"),
        ]),
        Fault::Write { .. } => words(&[Text(b"it could not be written")]),
        Fault::Memory => words(&[Text(b"memory ran out")]),
    }
}

// What is wrong with a line of a script.
fn script_words(code: ScriptCode) -> &'static [u8]
    ensures text { result.now ≡ script_words code }
    ensures len { length result.now ≤ 90 }
{
    match code {
        ScriptCode::Word => {
            b" has a word that is unknown, empty or not ASCII, or a wrong number of words"
        }
        ScriptCode::Place => b" is out of its place",
        ScriptCode::Number => {
            b" has a word that should be a number, a digest, a list or hexadecimal digits"
        }
        ScriptCode::Name => {
            b" has a name of a wrong form, an unknown one, or one that is given twice"
        }
        ScriptCode::Range => {
            b" has a value that a feed cannot hold, or ends a script that is too long"
        }
    }
}

// Why a text was not answered.
fn text_words(fault: &ScriptFault) -> ShortLine
    ensures { result.items ≡ ended (text_words fault.now) }
{
    match fault {
        ScriptFault::Script { line, code } => words(&[
            Text(b"line"),
            Number(*line),
            Text(script_words(*code)),
        ]),
        ScriptFault::Read => words(&[Text(b"it could not be opened or read")]),
        ScriptFault::Write { .. } => words(&[Text(b"it could not be written")]),
        ScriptFault::Memory => words(&[Text(b"memory ran out")]),
    }
}

// What is wrong with a line of a file.
fn line_words(line: u32, wrong: &[u8]) -> ShortLine
    requires { length wrong.now ≤ 90 }
    ensures { result.items ≡ ended (line_words line wrong.now) }
{
    words(&[Text(b"line"), Number(u64::from(line)), Text(wrong)])
}

// Why a list of events was not read.
fn unread_words(fault: &LinesFault) -> ShortLine
    ensures { result.items ≡ ended (unread_words fault.now) }
{
    match fault {
        LinesFault::Line { line } => line_words(*line, b" is not an event"),
        LinesFault::Read => words(&[Text(b"it could not be opened or read")]),
        LinesFault::Memory => words(&[Text(b"memory ran out")]),
    }
}

// Why an event is refused.
fn refused_words(code: Refused) -> &'static [u8]
    ensures text { result.now ≡ refused_words code }
    ensures len { length result.now ≤ 90 }
{
    match code {
        Refused::NotReady => b" claims a place that cannot be claimed",
        Refused::NotIdle => b" is of a worker that has a transaction, or of none",
        Refused::NotHolder => b" is of a worker that has no transaction",
        Refused::NotDeclared => b" has a word that is not one of the transaction's",
        Refused::OutOfTurn => b" comes out of turn",
    }
}

// Why a list of events gives no report.
fn list_words(fault: &ListFault) -> ShortLine
    ensures { result.items ≡ ended (list_words fault.now) }
{
    match fault {
        ListFault::Unread(fault) => unread_words(fault),
        ListFault::Refused { line, code } => words(&[
            Text(b"the event in line"),
            Number(u64::from(*line)),
            Text(refused_words(*code)),
        ]),
        ListFault::Unfinished { place } => words(&[
            Text(b"after all events the transaction at place"),
            Number(u64::from(*place)),
            Text(b" is not done"),
        ]),
    }
}

// In which part the setup of the second feed differs.
fn setup_words(part: SetupPart) -> &'static [u8]
    ensures text { result.now ≡ setup_words part }
    ensures len { length result.now ≤ 90 }
{
    match part {
        SetupPart::Absent => b"not both feeds have a committee and a genesis",
        SetupPart::Version => b"its version is not that of the first feed",
        SetupPart::Committee => {
            b"its committee is not that of the first feed: the keys, the weights or their number"
        }
        SetupPart::Accounts => b"its opening accounts are not those of the first feed",
    }
}

// How two feeds differ.
fn differ_words(differ: &Differ) -> ShortLine
    ensures { result.items ≡ ended (differ_words differ.now) }
{
    match differ {
        Differ::Setup { part } => words(&[Text(setup_words(*part))]),
        Differ::Collision { id } => collision_words(id),
        Differ::Twins { round, author, .. } => twins_words(*round, *author),
        Differ::Memory => words(&[Text(b"memory ran out")]),
    }
}

// Why two feeds do not agree.
fn compare_words(stop: &CompareStop) -> ShortLine
    ensures { result.items ≡ ended (compare_words stop.now) }
{
    match stop {
        CompareStop::First(fault) | CompareStop::Second(fault) => replay_words(fault),
        CompareStop::Differ(differ) => differ_words(differ),
    }
}

// What a feed has not, and at which missing batch its order stops, where there is one.
fn absent_words<'a>(what: &'a [u8], number: u64, missing: &'a Option<Digest32>) -> ShortLine
    requires { length what.now ≤ 40 }
    ensures { result.items ≡ ended (absent_words what.now number missing.now) }
{
    match missing {
        Some(digest) => words(&[
            Text(what),
            Number(number),
            Text(b"; the order stops at the missing batch"),
            Digest(digest),
        ]),
        None => words(&[Text(what), Number(number)]),
    }
}

/// A fault in words, after a colon and up to the end of its line.
pub(crate) fn in_words(fault: &JobFault) -> ShortLine
    ensures { result.items ≡ ended (words_of fault.now) }
{
    match fault {
        JobFault::Replay(fault) => replay_words(fault),
        JobFault::Text(fault) => text_words(fault),
        JobFault::Events(fault) => list_words(fault),
        JobFault::Accounts { line } => line_words(
            *line,
            b" is not the id of an account, or ends a list that is too long",
        ),
        JobFault::Links { line } => line_words(
            *line,
            b" is not a line of `link`, or ends a text that is too long",
        ),
        JobFault::Compared(stop) => compare_words(stop),
        JobFault::AbsentAccount { id, missing } => absent_words(
            b"there is no account",
            *id,
            missing,
        ),
        JobFault::AbsentPlace { place, missing } => absent_words(
            b"there is no transaction at place",
            u64::from(*place),
            missing,
        ),
    }
}
