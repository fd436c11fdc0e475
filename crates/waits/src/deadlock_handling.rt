// The filter by common locks, and the writing of a report.
ghost use Rattle.std.specs.Prelude.{◌≡◌, ◌+◌, ◌≤◌, length};
ghost use Rattle.sets.specs.Limits.{LOCKS};
ghost use Rattle.sets.specs.Sets.{upward};
ghost use Rattle.waits.specs.Tables.{InRange};
ghost use Rattle.waits.specs.Filter.{passes};
ghost use Rattle.waits.specs.Report.{report_bytes, bytes_of, report};
ghost use Rattle.waits.specs.Code.{common_mask, all_read};
ghost use Rattle.waits.specs.Promises.{laid};

use crate::counts::is_read;
use crate::intent::lock_of;
use crate::tables::Waits;
use graph::Path;
use sets::Set;

// Returns true if every lock of the set has a reader.
fn all_read(counts: &[u8; Waits::COUNTS], common: u64) -> bool
    ensures { result ≡ all_read counts.now (upward LOCKS common) }
{
    common.upward().all(|l| is_read(counts, l))
}

impl Waits {
    // Returns the locks that are in the holds of every thread of the cycle.
    fn common_holds(&self, cycle: &Path) -> u64
        ensures { result ≡ common_mask self.now.thread_holds 18446744073709551615 cycle.now }
    {
        let mut intersection = u64::MAX;
        for &t in cycle.threads() {
            intersection &= self.thread_holds[usize::from(t)];
        }
        intersection
    }

    // Returns true if the cycle passes the filter: every lock that each of its threads holds has a reader.
    pub(crate) fn filter_cycle_by_common_locks(
        &self,
        counts: &[u8; Waits::COUNTS],
        cycle: &Path,
    ) -> bool
        ensures { result ≡ passes counts.now self.now cycle.now }
    {
        all_read(counts, self.common_holds(cycle))
    }

    // Writes the report of the cycle from the place `from` on: the number of its entries, then for each thread an entry
    // with the thread and the lock it awaits. Returns the place after the report.
    pub fn report(&self, cycle: &Path, buf: &mut [u8], from: usize) -> usize
        requires { from + report_bytes ≤ length buf.old }
        ensures bytes { buf.new ≡ laid buf.old from (bytes_of (report self.now cycle.now)) }
        ensures used { result ≡ from + length (bytes_of (report self.now cycle.now)) }
        ensures room { length (bytes_of (report self.now cycle.now)) ≤ report_bytes }
    {
        let threads = cycle.threads();
        buf[from] = threads.len() as u8;
        let mut at = from + 1;
        for &t in threads {
            buf[at] = t;
            buf[at + 1] = lock_of(self.thread_waits_for[usize::from(t)]);
            at += Waits::ENTRY_BYTES;
        }
        at
    }
}
