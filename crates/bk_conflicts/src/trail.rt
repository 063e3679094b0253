//! The last writer of each slot and its readers since, and what a place waits for by them.

ghost use Rattle.std.specs.Prelude.{◌≡◌, ◌≢◌, ℕ, ◌+◌, ◌^◌, ◌<◌, ◌≤◌, List, [], ◌∷◌, length, cond, OnOk, IfOk, All, replicate, slice_index_or};
ghost use Rattle.bk_conflicts.specs.private.Accesses.{Places, IsAscending};
ghost use Rattle.bk_conflicts.specs.private.Rows.{AreCounts};
ghost use Rattle.bk_conflicts.specs.private.Trail.{none, WriterIs, Stands, newest_by, writer_by, Linked, IsLinks, IsTrail, Shows, IsRow, with_once, all_once, sources_of, gathered};

use crate::rows::refill_wide;
use crate::words::Access;
use std::alloc::{AllocError, Global};

// The mark of a slot that nobody has written: there are never so many places.
const NONE: u32 = u32::MAX;

// A reader of a slot.
#[derive(Clone, Copy)]
pub(crate) struct Reader {
    pub(crate) place: u32,
    // The last writer before it, or NONE.
    pub(crate) writer: u32,
    // The entry of the reader before it, if it has the same last writer, or 0. Entries can be more than 2^32, eight for
    // each place.
    pub(crate) prev: usize,
}

// What the places so far did to each slot.
#[derive(Drop)]
pub(crate) struct Trail {
    // By slot, in 8 bytes. Up to NONE it is the last writer, or NONE, and nobody has read the slot since. Above, it is
    // NONE plus the entry of the newest reader since, which has the writer.
    pub(crate) last: Vec<usize>,
    // Entry 0 is nobody.
    pub(crate) readers: Vec<Reader>,
}

// The entry of the newest reader since the last writer, or 0.
fn newest_of(last: usize) -> usize
    ensures { result ≡ newest_by last }
{
    last.saturating_sub(NONE as usize)
}

// The last writer, or NONE.
fn writer_of(readers: &[Reader], last: usize) -> u32
    requires { newest_by last < length readers.now }
    ensures { result ≡ writer_by readers.now last }
{
    let newest = newest_of(last);
    if newest == 0 {
        last as u32
    } else {
        readers[newest].writer
    }
}

// Adds `source` to the row at the end of `found`, and counts it, where it is not in it yet.
fn add_once(
    stamp: &mut [u32],
    counts: &mut [usize],
    found: &mut Vec<u32>,
    mark: u32,
    source: u32,
) -> Result<(), AllocError>
    requires inside { source < length stamp.old }
    requires wide { length counts.old ≡ length stamp.old }
    requires counted { AreCounts counts.old found.old.items }
    ensures row { (before row : List ℕ) → IsRow mark before row stamp.old found.old.items →
        OnOk result (IsRow mark before (with_once row source) stamp.new found.new.items) }
    ensures counted { OnOk result (AreCounts counts.new found.new.items) }
{
    if stamp[source as usize] != mark {
        found.push(source)?;
        stamp[source as usize] = mark;
        counts[source as usize] += 1;
    }
    Ok(())
}

// Adds the readers from entry `newest` on.
fn add_readers(
    readers: &[Reader],
    newest: usize,
    stamp: &mut [u32],
    counts: &mut [usize],
    found: &mut Vec<u32>,
    mark: u32,
) -> Result<(), AllocError>
    requires links { IsLinks (length stamp.old) readers.now }
    requires head { newest < length readers.now }
    requires wide { length counts.old ≡ length stamp.old }
    requires counted { AreCounts counts.old found.old.items }
    ensures row { (before row ps : List ℕ) → Linked readers.now newest ps →
        IsRow mark before row stamp.old found.old.items →
        OnOk result (IsRow mark before (all_once row ps) stamp.new found.new.items) }
    ensures counted { OnOk result (AreCounts counts.new found.new.items) }
{
    let mut at = newest;
    while at != 0 {
        let reader = readers[at];
        add_once(stamp, counts, found, mark, reader.place)?;
        at = reader.prev;
    }
    Ok(())
}

// Adds a writer where there is one.
fn add_writer(
    writer: u32,
    stamp: &mut [u32],
    counts: &mut [usize],
    found: &mut Vec<u32>,
    mark: u32,
) -> Result<(), AllocError>
    requires inside { writer ≢ none → writer < length stamp.old }
    requires wide { length counts.old ≡ length stamp.old }
    requires counted { AreCounts counts.old found.old.items }
    ensures row { (before row ws : List ℕ) → WriterIs writer ws →
        IsRow mark before row stamp.old found.old.items →
        OnOk result (IsRow mark before (all_once row ws) stamp.new found.new.items) }
    ensures counted { OnOk result (AreCounts counts.new found.new.items) }
{
    if writer != NONE {
        add_once(stamp, counts, found, mark, writer)?;
    }
    Ok(())
}

// Adds what place `q` waits for on a slot: the readers since the last writer, or that writer.
fn wait_for(
    trail: &Trail,
    stamp: &mut [u32],
    counts: &mut [usize],
    found: &mut Vec<u32>,
    q: u32,
    access: Access,
) -> Result<(), AllocError>
    requires trail { IsTrail (length trail.now.last.items) (length stamp.old) trail.now }
    requires slot { access.slot < length trail.now.last.items }
    requires small { q < 2 ^ 31 }
    requires wide { length counts.old ≡ length stamp.old }
    requires counted { AreCounts counts.old found.old.items }
    ensures row { (before row rs ws : List ℕ) → Shows trail.now access.slot rs ws →
        IsRow (q + 1) before row stamp.old found.old.items →
        OnOk result (IsRow (q + 1) before (all_once row (sources_of access.writable rs ws))
        stamp.new found.new.items) }
    ensures counted { OnOk result (AreCounts counts.new found.new.items) }
{
    let last = trail.last[access.slot as usize];
    let newest = newest_of(last);
    if access.writable && newest != 0 {
        add_readers(&trail.readers, newest, stamp, counts, found, q + 1)?;
        Ok(())
    } else {
        let writer = writer_of(&trail.readers, last);
        add_writer(writer, stamp, counts, found, q + 1)?;
        Ok(())
    }
}

// Place `q` reads slot `a`.
fn push_reader(trail: &mut Trail, a: usize, q: u32) -> Result<(), AllocError>
    requires slot { a < length trail.old.last.items }
    requires head { newest_by (slice_index_or trail.old.last.items a 0)
        < length trail.old.readers.items }
    ensures trail { (places : ℕ) → q < places →
        IsTrail (length trail.old.last.items) places trail.old →
        OnOk result (IsTrail (length trail.old.last.items) places trail.new) }
    ensures kept { OnOk result ((places b : ℕ) (rs ws : List ℕ) →
        IsTrail (length trail.old.last.items) places trail.old → b ≢ a →
        Shows trail.old b rs ws → Shows trail.new b rs ws) }
    ensures changed { OnOk result ((places : ℕ) (rs ws : List ℕ) →
        IsTrail (length trail.old.last.items) places trail.old →
        Shows trail.old a rs ws → Shows trail.new a (q ∷ rs) ws) }
{
    let last = trail.last[a];
    let entry = trail.readers.len();
    let reader = Reader {
        place: q,
        writer: writer_of(&trail.readers, last),
        prev: newest_of(last),
    };
    trail.readers.push(reader)?;
    trail.last[a] = NONE as usize + entry;
    Ok(())
}

// Place `q` accesses a slot.
fn enter(trail: &mut Trail, q: u32, access: Access) -> Result<(), AllocError>
    requires slot { access.slot < length trail.old.last.items }
    requires head { newest_by (slice_index_or trail.old.last.items access.slot 0)
        < length trail.old.readers.items }
    requires small { q < 2 ^ 31 }
    ensures trail { (places : ℕ) → q < places →
        IsTrail (length trail.old.last.items) places trail.old →
        OnOk result (IsTrail (length trail.old.last.items) places trail.new) }
    ensures kept { OnOk result ((places b : ℕ) (rs ws : List ℕ) →
        IsTrail (length trail.old.last.items) places trail.old → b ≢ access.slot →
        Shows trail.old b rs ws → Shows trail.new b rs ws) }
    ensures changed { OnOk result ((places : ℕ) (rs ws : List ℕ) →
        IsTrail (length trail.old.last.items) places trail.old →
        Shows trail.old access.slot rs ws →
        Shows trail.new access.slot
        (cond access.writable [] (q ∷ rs)) (cond access.writable (q ∷ []) ws)) }
{
    let a = access.slot as usize;
    if access.writable {
        trail.last[a] = q as usize;
        Ok(())
    } else {
        push_reader(trail, a, q)?;
        Ok(())
    }
}

// Adds what place `q` waits for to the row at the end of `found`, counts it, and enters its accesses.
pub(crate) fn meet_all(
    trail: &mut Trail,
    stamp: &mut [u32],
    counts: &mut [usize],
    found: &mut Vec<u32>,
    q: u32,
    xs: &[Access],
) -> Result<(), AllocError>
    requires trail { IsTrail (length trail.old.last.items) (length stamp.old) trail.old }
    requires slots { All (λ x. x.slot < length trail.old.last.items) xs.now }
    requires place { q < length stamp.old }
    requires small { length stamp.old < 2 ^ 31 }
    requires wide { length counts.old ≡ length stamp.old }
    requires counted { AreCounts counts.old found.old.items }
    ensures trail { OnOk result (
        IsTrail (length trail.old.last.items) (length stamp.old) trail.new) }
    ensures found { (t : Places) (before row : List ℕ) → t q ≡ xs.now → IsAscending xs.now →
        Stands t q trail.old → IsRow (q + 1) before row stamp.old found.old.items →
        OnOk result (Stands t (q + 1) trail.new
        × IsRow (q + 1) before (all_once row (gathered t q xs.now)) stamp.new found.new.items) }
    ensures counted { OnOk result (AreCounts counts.new found.new.items) }
{
    for x in xs {
        wait_for(trail, stamp, counts, found, q, *x)?;
        enter(trail, q, *x)?;
    }
    Ok(())
}

// Nobody has accessed anything, and it takes no memory yet.
pub(crate) fn new_trail(alloc: Global) -> Trail {
    Trail {
        last: Vec::new(alloc),
        readers: Vec::new(alloc),
    }
}

// Forgets all accesses: nobody has accessed these slots.
pub(crate) fn clear_trail(trail: &mut Trail, slots: usize) -> Result<(), AllocError>
    ensures { OnOk result ((trail.new.last.items ≡ replicate slots none)
        × (length trail.new.readers.items ≡ 1)) }
{
    refill_wide(&mut trail.last, NONE as usize, slots)?;
    trail.readers.clear();
    trail.readers.push(Reader {
        place: 0,
        writer: 0,
        prev: 0,
    })?;
    Ok(())
}
