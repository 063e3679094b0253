/// What a worker does in one step. Workers, places and words go by number, from 0; any number can
/// be given here, and an event is refused where nothing has its number.
#[derive(Clone, Copy, Debug, PartialEq, Eq)]
pub enum Event {
    /// The worker takes the place.
    Claim { worker: u64, place: u64 },
    /// It reads a word of its place.
    Read { worker: u64, word: u64 },
    /// It writes a word of its place, having read them all.
    Write { worker: u64, word: u64 },
    /// It leaves its place, having written all that is declared for writing.
    Finish { worker: u64 },
}
