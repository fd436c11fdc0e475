// The events of a readers-writer lock.
ghost use Rattle.std.specs.Prelude.{◌≡◌, List, ℕ, ◌<◌, ◌≤◌, length};
ghost use Rattle.sets.specs.Limits.{THREADS, LOCKS};
ghost use Rattle.waits.specs.Counts.{count_of};
ghost use Rattle.detector.specs.RwLock.{loosen, read_attempt, complete_read, read_try, release_read, write_attempt, complete_write, release_write, destroy_rw_lock};
ghost use Rattle.detector.specs.Refusals.{hint_of, full_attempt, full_try, buffer_bytes};
ghost use Rattle.detector.specs.State.{tables, Valid};
ghost use Rattle.detector.specs.Promises.{Does};
ghost use Rattle.detector.specs.Code.{put_waits};

use crate::mutex::disown;
use crate::state::Detector;
use sets::Set;
use waits::{Outcome, Tried, WaitMode, Waits, count_down, count_up, no_readers, place};

impl Detector {
    // ra: t attempts to read l, with the outcome o. If t took it, does as rc. If t was blocked, makes the hinted
    // thread, if any, the writer, registers t's intent to read, and validates a path that is found, without the filter.
    pub fn acquire_read_slow_with_recheck(
        &mut self,
        t: usize,
        l: usize,
        o: Outcome,
        buf: &mut [u8],
    ) -> usize
        requires { Valid self.old × (t < THREADS) × (l < LOCKS) × (hint_of o < THREADS) × (full_attempt (tables self.old) t l o ≡ 0) × (buffer_bytes ≤ length buf.old) }
        ensures { Does self.new result buf.old buf.new (read_attempt (tables self.old) t l o) }
    {
        match o {
            Outcome::Took => {
                self.complete_read(t, l);
                return 0;
            }
            Outcome::Blocked => {}
            Outcome::Hinted(h) => self.waits.rwlock_writer[l] = h as u8,
        }
        self.block(t, l, WaitMode::RwRead, buf)
    }

    // rc: t reads l. Adds one to its count and clears t's intent. Does not refresh l's waiters or add l to t's holds.
    pub fn complete_read(&mut self, t: usize, l: usize)
        requires { Valid self.old × (t < THREADS) × (l < LOCKS) × (count_of self.old.rwlock_readers t l ≡ 255 → ⊥) }
        ensures { (b : List ℕ) → Does self.new 0 b b (complete_read (tables self.old) t l) }
    {
        self.waits.clear_wait_intent(t);
        count_up(&mut self.rwlock_readers, t, l);
    }

    // rt: t tries to read l without waiting. If t took it, adds one to its count and refreshes l's waiters; a path is
    // dropped, and t's intent stays. If t missed it, nothing changes.
    pub fn try_read_nonblocking(&mut self, t: usize, l: usize, o: Tried)
        requires { Valid self.old × (t < THREADS) × (l < LOCKS) × (full_try (tables self.old) t l o ≡ 0) }
        ensures { (b : List ℕ) → Does self.new 0 b b (read_try (tables self.old) t l o) }
    {
        if let Tried::Taken = o {
            count_up(&mut self.rwlock_readers, t, l);
            let _ = self.waits.refresh_waiters_for_lock(&self.rwlock_readers, l);
        }
    }

    // Drops the edges from l's waiters to t.
    fn loosen(&mut self, t: usize, l: usize)
        requires { (t < THREADS) × (l < LOCKS) }
        ensures { self.new ≡ put_waits self.old (loosen self.old.waits t l) }
    {
        let waiters = self.waits.lock_waiters[l];
        self.waits.wait_for_graph.remove_edges_to(waiters, t);
    }

    // rr: t gives up one read of l. Takes one off its count, or leaves it at 0. If the count is 0 after that, drops the
    // edges from l's waiters to t. Does not refresh l's waiters.
    pub fn release_read(&mut self, t: usize, l: usize)
        requires { Valid self.old × (t < THREADS) × (l < LOCKS) }
        ensures { (b : List ℕ) → Does self.new 0 b b (release_read (tables self.old) t l) }
    {
        count_down(&mut self.rwlock_readers, t, l);
        if self.rwlock_readers[place(t, l)] == 0 {
            self.loosen(t, l);
        }
    }

    // wa: t attempts to write l, with the outcome o. If t took it, does as wc. If t was blocked, makes the hinted
    // thread, if any, the writer. Then, if l has a reader or a writer, registers t's intent to write and validates a
    // path that is found, without the filter. If l has neither, t keeps the intent it had.
    pub fn acquire_write_slow_with_recheck(
        &mut self,
        t: usize,
        l: usize,
        o: Outcome,
        buf: &mut [u8],
    ) -> usize
        requires { Valid self.old × (t < THREADS) × (l < LOCKS) × (hint_of o < THREADS) × (buffer_bytes ≤ length buf.old) }
        ensures { Does self.new result buf.old buf.new (write_attempt (tables self.old) t l o) }
    {
        match o {
            Outcome::Took => return self.complete_write(t, l, buf),
            Outcome::Blocked => {}
            Outcome::Hinted(h) => self.waits.rwlock_writer[l] = h as u8,
        }
        self.block(t, l, WaitMode::RwWrite, buf)
    }

    // wc: t writes l. Makes t its writer, adds l to t's holds, clears t's intent, refreshes l's waiters, and validates
    // a path that the refresh finds, without the filter.
    pub fn complete_write(&mut self, t: usize, l: usize, buf: &mut [u8]) -> usize
        requires { Valid self.old × (t < THREADS) × (l < LOCKS) × (buffer_bytes ≤ length buf.old) }
        ensures { Does self.new result buf.old buf.new (complete_write (tables self.old) t l) }
    {
        self.waits.rwlock_writer[l] = t as u8;
        self.take(t, l, buf)
    }

    // wr: t gives up writing l. Makes nobody its writer if t was. In any case takes l out of t's holds and drops the
    // edges from l's waiters to t. Does not refresh l's waiters.
    pub fn release_write(&mut self, t: usize, l: usize)
        requires { Valid self.old × (t < THREADS) × (l < LOCKS) }
        ensures { (b : List ℕ) → Does self.new 0 b b (release_write (tables self.old) t l) }
    {
        disown(&mut self.waits.rwlock_writer, t, l);
        self.waits.thread_holds[t] = self.waits.thread_holds[t].without(l);
        self.loosen(t, l);
    }

    // rd: the readers-writer lock l is gone. Makes nobody its writer, sets its counts to 0, takes l out of all holds,
    // and empties its waiters. Leaves the intents that name l, and all edges.
    pub fn destroy_rwlock(&mut self, l: usize)
        requires { Valid self.old × (l < LOCKS) }
        ensures { (b : List ℕ) → Does self.new 0 b b (destroy_rw_lock (tables self.old) l) }
    {
        no_readers(&mut self.rwlock_readers, l);
        self.waits.rwlock_writer[l] = Waits::NOBODY;
        self.purge(l);
    }
}
