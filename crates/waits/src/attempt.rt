// What the events that may report are made of: registering or refreshing, and judging the path that is found.
ghost use Rattle.std.specs.Prelude.{◌≡◌, ◌<◌};
ghost use Rattle.sets.specs.Limits.{THREADS, LOCKS};
ghost use Rattle.waits.specs.Tables.{InRange};
ghost use Rattle.waits.specs.Attempt.{judge_found, settle, free, block_for};
ghost use Rattle.waits.specs.Code.{judged, free_for, passes_for};

use crate::counts::is_read;
use crate::intent::{WaitIntent, WaitMode};
use crate::tables::Waits;
use graph::Path;

impl Waits {
    // Validates the path that a search found, and returns the cycle to report. If it found none, nothing is reported.
    fn judge(&mut self, counts: &[u8; Waits::COUNTS], found: Option<Path>) -> Option<Path>
        requires { InRange self.old }
        ensures { (judged self.new result ≡ judge_found counts.now self.old found) × InRange self.new }
    {
        self.validated_deadlock_info(counts, found?)
    }

    // Returns true if l has neither a reader nor a writer.
    fn is_free(&self, counts: &[u8; Waits::COUNTS], l: usize) -> bool
        requires { l < LOCKS }
        ensures { result ≡ free counts.now self.now l }
    {
        !is_read(counts, l) && self.rwlock_writer[l] == Waits::NOBODY
    }

    // Returns true if a thread with this intent has nothing to wait for: it wants to write, and the lock is free. For
    // the other modes the intent is registered in any case.
    fn is_free_for(&self, counts: &[u8; Waits::COUNTS], i: WaitIntent) -> bool
        requires { i.lock_id < LOCKS }
        ensures { result ≡ free_for i.mode counts.now self.now i.lock_id }
    {
        match i.mode {
            WaitMode::Mutex | WaitMode::RwRead => false,
            WaitMode::RwWrite => self.is_free(counts, usize::from(i.lock_id)),
        }
    }

    // Returns true if the path may be validated. A path found for a mutex must pass the filter; one found for a read or
    // a write always may.
    fn passes_for(&self, counts: &[u8; Waits::COUNTS], i: WaitIntent, cycle: &Path) -> bool
        ensures { result ≡ passes_for i.mode counts.now self.now cycle.now }
    {
        match i.mode {
            WaitMode::Mutex => self.filter_cycle_by_common_locks(counts, cycle),
            WaitMode::RwRead | WaitMode::RwWrite => true,
        }
    }

    // Refreshes l's waiters, validates a path that the refresh finds, and returns the cycle to report.
    pub fn settle(&mut self, counts: &[u8; Waits::COUNTS], l: usize) -> Option<Path>
        requires { InRange self.old × (l < LOCKS) }
        ensures { (judged self.new result ≡ settle counts.now self.old l) × InRange self.new }
    {
        let found = self.refresh_waiters_for_lock(counts, l);
        self.judge(counts, found)
    }

    // Registers t's intent on l, validates a path that is found, and returns the cycle to report; if the mode is Mutex,
    // the path must pass the filter first. Does nothing if t wants to write and l is free.
    pub fn attempt(
        &mut self,
        counts: &[u8; Waits::COUNTS],
        t: usize,
        l: usize,
        mode: WaitMode,
    ) -> Option<Path>
        requires { InRange self.old × (t < THREADS) × (l < LOCKS) }
        ensures { (judged self.new result ≡ block_for mode counts.now self.old t l) × InRange self.new }
    {
        let i = WaitIntent {
            lock_id: l as u8,
            mode,
        };
        if self.is_free_for(counts, i) {
            return None;
        }
        let cycle = self.register_wait(counts, t, i)?;
        if self.passes_for(counts, i, &cycle) {
            return self.validated_deadlock_info(counts, cycle);
        }
        None
    }
}
