// What the events that may report have in common.
ghost use Rattle.std.specs.Prelude.{◌≡◌, ◌<◌, ◌≤◌, length};
ghost use Rattle.sets.specs.Limits.{THREADS, LOCKS};
ghost use Rattle.waits.specs.Attempt.{settle, block_for};
ghost use Rattle.waits.specs.Code.{judged};
ghost use Rattle.waits.specs.Promises.{laid};
ghost use Rattle.waits.specs.Report.{written};
ghost use Rattle.detector.specs.Mutex.{gain};
ghost use Rattle.detector.specs.Refusals.{buffer_bytes};
ghost use Rattle.detector.specs.Tables.{with_judging};
ghost use Rattle.detector.specs.State.{tables, Valid};
ghost use Rattle.detector.specs.Promises.{Does};

use crate::state::Detector;
use graph::Path;
use sets::Set;
use waits::WaitMode;

impl Detector {
    // Writes the report of the cycle, if there is one, at the start of the buffer. Returns the number of reports.
    pub(crate) fn report(&self, cycle: Option<Path>, buf: &mut [u8]) -> usize
        requires { buffer_bytes ≤ length buf.old }
        ensures count { result ≡ length (judged self.now.waits cycle).reports }
        ensures bytes { buf.new ≡ laid buf.old 0 (written (judged self.now.waits cycle).reports) }
    {
        let Some(cycle) = cycle else {
            return 0;
        };
        self.waits.report(&cycle, buf, 0);
        1
    }

    // Takes l for t: adds l to t's holds, clears t's intent, refreshes l's waiters, and validates a path that the
    // refresh finds, without the filter. Returns the number of reports.
    pub(crate) fn take(&mut self, t: usize, l: usize, buf: &mut [u8]) -> usize
        requires { Valid self.old × (t < THREADS) × (l < LOCKS) × (buffer_bytes ≤ length buf.old) }
        ensures { Does self.new result buf.old buf.new (with_judging (tables self.old) (settle self.old.rwlock_readers (gain self.old.waits t l) l)) }
    {
        self.waits.thread_holds[t] = self.waits.thread_holds[t].with(l);
        self.waits.clear_wait_intent(t);
        let cycle = self.waits.settle(&self.rwlock_readers, l);
        self.report(cycle, buf)
    }

    // Makes t wait for l: registers t's intent in this mode, as `Waits::attempt` does, and writes the report of a cycle
    // that this finds. Returns the number of reports.
    pub(crate) fn block(&mut self, t: usize, l: usize, mode: WaitMode, buf: &mut [u8]) -> usize
        requires { Valid self.old × (t < THREADS) × (l < LOCKS) × (buffer_bytes ≤ length buf.old) }
        ensures { Does self.new result buf.old buf.new (with_judging (tables self.old) (block_for mode self.old.rwlock_readers self.old.waits t l)) }
    {
        let cycle = self.waits.attempt(&self.rwlock_readers, t, l, mode);
        self.report(cycle, buf)
    }
}
