//! Why a list of events gives no report.

use bk_base::Refused;
use bk_results::LinesFault;

/// Why a list of events gives no report. With each of these nothing is written.
#[derive(Clone, Copy)]
pub enum ListFault {
    /// The list was not read: a line of it is no event, its source failed, or memory was refused.
    Unread(LinesFault),
    /// The event on this line, counted from 1, is refused, and each before it is allowed.
    Refused { line: u32, code: Refused },
    /// All events are allowed, and after them this place is not done, but each before it is.
    Unfinished { place: u32 },
}
