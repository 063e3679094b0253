//! How many batches there are.

ghost use Rattle.std.specs.Prelude.{◌≡◌, is_some, not};
ghost use Rattle.bk_summary.specs.private.Sums.{batches_of, void_in};

use crate::summary::BatchCounts;
use bk_order::Tally;

// How many batches of these counts are void.
fn void_in(counts: &[Option<u16>]) -> usize
    ensures { result ≡ void_in counts.now }
{
    counts
        .iter()
        .filter(
            |count: &&Option<u16>| -> bool
                ensures { result ≡ not (is_some count.now.now) }
            { count.is_none() },
        )
        .count()
}

/// How many batches there are, where those of the order hold this many transactions each.
pub(crate) fn batch_counts(tally: Tally, counts: &[Option<u16>]) -> BatchCounts
    ensures { result ≡ batches_of tally counts.now }
{
    let ordered = counts.len() as u64;
    BatchCounts {
        all: tally.batches.all,
        repeated: tally.batches.all.saturating_sub(tally.batches.names),
        ordered,
        void: void_in(counts) as u64,
        unordered: tally.batches.names.saturating_sub(ordered),
    }
}
