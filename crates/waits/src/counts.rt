// The reader counts: how often each thread reads each lock.
ghost use Rattle.std.specs.Prelude.{◌≡◌, not, ◌<◌};
ghost use Rattle.sets.specs.Limits.{THREADS, LOCKS};
ghost use Rattle.sets.specs.Sets.{upward};
ghost use Rattle.waits.specs.Counts.{COUNTS, place, readers, count_of, count_up, count_down, no_readers};
ghost use Rattle.waits.specs.Filter.{nobody_reads};

use crate::tables::Waits;
use sets::{Set, THREADS};

// Returns the place of the count of thread t and lock l.
pub fn place(t: usize, l: usize) -> usize
    requires { (l < LOCKS) × (t < THREADS) }
    ensures { (result ≡ place t l) × (result < COUNTS) }
{
    l * THREADS + t
}

// Returns the readers of the lock as a set: the threads whose count is not 0.
pub(crate) fn reader_mask(counts: &[u8; Waits::COUNTS], lock: usize) -> u32
    requires { lock < LOCKS }
    ensures { upward THREADS result ≡ readers counts.now lock }
{
    let first = place(0, lock);
    let mut readers = 0u32;
    for (t, &count) in counts[first..first + THREADS].iter().enumerate() {
        if count != 0 {
            readers = readers.with(t);
        }
    }
    readers
}

// Returns true if a thread reads the lock.
pub(crate) fn is_read(counts: &[u8; Waits::COUNTS], lock: usize) -> bool
    requires { lock < LOCKS }
    ensures { result ≡ not (nobody_reads counts.now lock) }
{
    reader_mask(counts, lock) != 0
}

// Counts one more read of l by t. The count must be below 255.
pub fn count_up(counts: &mut [u8; Waits::COUNTS], t: usize, l: usize)
    requires { (t < THREADS) × (l < LOCKS) × (count_of counts.old t l ≡ 255 → ⊥) }
    ensures { counts.new ≡ count_up counts.old t l }
{
    counts[place(t, l)] += 1;
}

// Counts one read less of l by t. A count of 0 stays 0.
pub fn count_down(counts: &mut [u8; Waits::COUNTS], t: usize, l: usize)
    requires { (t < THREADS) × (l < LOCKS) }
    ensures { counts.new ≡ count_down counts.old t l }
{
    let at = place(t, l);
    counts[at] = counts[at].saturating_sub(1);
}

// Sets the counts of l to 0, so that it has no readers.
pub fn no_readers(counts: &mut [u8; Waits::COUNTS], l: usize)
    requires { l < LOCKS }
    ensures { counts.new ≡ no_readers counts.old l }
{
    let first = place(0, l);
    counts[first..first + THREADS].fill(0);
}
