//! Lists of events: the text of an execution's events, one a line.

ghost use Rattle.std.specs.Prelude.{◌≡◌, ◌+◌, length, map, IfOk, IfErr};
ghost use Rattle.bk_frames.specs.Device.{CanBeUsed};
ghost use Rattle.bk_script.specs.Events.{AreEvents, EventList, HasNoEvents, no_events, event_list, event_named, event_of, with_event, with_event_line};
ghost use Rattle.bk_script.specs.Listing.{Lists};

use crate::fault::Stop;
use crate::line::{is_ascii, is_skipped};
use crate::listing::{LineList, read_list};
use crate::making::MOST_SCRIPT;
use crate::words::{numbers, pieces};
use bk_frames::Source;
use bk_results::LinesFault;
use bk_steps::Event;
use std::alloc::{AllocError, Global};

/// A list of events.
#[derive(Debug, Drop)]
pub struct Events {
    /// The events, in the order of their lines.
    pub list: Vec<Event>,
    /// The line of each event, counted from 1.
    pub lines: Vec<u32>,
}

// The event of a first word and the numbers after it.
#[tactic(auto, unfolding(crate::specs::Events::event_named))]
fn event_named(name: &[u8], numbers: &[u64]) -> Option<Event>
    ensures { result ≡ event_named name.now numbers.now }
{
    match numbers {
        [worker] => {
            let worker = *worker;
            if name == b"finish".as_slice() {
                Some(Event::Finish { worker })
            } else {
                None
            }
        }
        [worker, item] => {
            let worker = *worker;
            let item = *item;
            if name == b"claim".as_slice() {
                Some(Event::Claim {
                    worker,
                    place: item,
                })
            } else if name == b"read".as_slice() {
                Some(Event::Read { worker, word: item })
            } else if name == b"write".as_slice() {
                Some(Event::Write { worker, word: item })
            } else {
                None
            }
        }
        _ => None,
    }
}

// The event that words say.
#[tactic(auto, unfolding(crate::specs::Events::event_of))]
fn event_of(alloc: Global, words: &[&[u8]]) -> Result<Option<Event>, AllocError>
    ensures { IfOk result (λ event. event ≡ event_of (map (λ w. w.now) words.now)) }
{
    let Some((name, words)) = words.split_first() else {
        return Ok(None);
    };
    match numbers(alloc, words) {
        Ok(numbers) => Ok(event_named(name, &numbers)),
        Err(Stop::Code(_)) => Ok(None),
        Err(Stop::Memory) => Err(AllocError),
    }
}

impl Events {
    // None yet.
    fn new(alloc: Global) -> Events
        ensures { event_list result ≡ no_events }
    {
        Events {
            list: Vec::new(alloc),
            lines: Vec::new(alloc),
        }
    }

    // Takes one more event, or a fault of its line where there is none.
    fn push(&mut self, number: u32, event: Option<Event>) -> Result<(), LinesFault>
        ensures { Lists (λ _. event_list self.new) result
            (with_event (event_list self.old) number event) }
    {
        let Some(event) = event else {
            return Err(LinesFault::Line { line: number });
        };
        self.list.push(event)?;
        self.lines.push(number)?;
        Ok(())
    }
}

impl LineList for Events {
    ghost Value = { EventList };

    ghost value = { event_list };

    ghost with_line = { with_event_line };

    #[tactic(auto, unfolding(crate::specs::Events::with_event_line))]
    fn take_line(&mut self, alloc: Global, number: u32, line: &[u8]) -> Result<(), LinesFault> {
        if !is_ascii(line) {
            return Err(LinesFault::Line { line: number });
        }
        if is_skipped(line) {
            return Ok(());
        }
        let words = pieces(alloc, b' ', line)?;
        let event = event_of(alloc, &words)?;
        self.push(number, event)
    }
}

/// Reads the text of a list of events to its end. O(n).
///
/// The lines are those of a script: ASCII, those that are empty or begin with `#` are skipped but counted. Every other
/// line is `claim W P`, `read W X`, `write W X` or `finish W`, with the numbers of a script, below 2^64. Of a text of
/// more than [`MOST_SCRIPT`] bytes, one byte more than these is read.
pub fn read_events<S: Source>(alloc: Global, source: &mut S) -> Result<Events, LinesFault>
    requires source { CanBeUsed (S.state source.old) }
    ensures events { IfOk result (λ events.
        AreEvents (S.state source.old) (S.state source.new) events) }
    ensures lines { IfOk result (λ events. length events.lines.items ≡ length events.list.items) }
    ensures fault { IfErr result (λ e. HasNoEvents e (S.state source.old) (S.state source.new)) }
{
    read_list(alloc, source, Events::new(alloc), MOST_SCRIPT)
}
