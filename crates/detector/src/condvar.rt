// The events of a condition variable.
ghost use Rattle.std.specs.Prelude.{◌≡◌, List, ℕ, ◌<◌, ◌≤◌, length, get_or};
ghost use Rattle.sets.specs.Limits.{THREADS, LOCKS};
ghost use Rattle.sets.specs.Sets.{with};
ghost use Rattle.detector.specs.Limits.{CONDVARS, PLACES};
ghost use Rattle.waits.specs.Tables.{InRange};
ghost use Rattle.waits.specs.Code.{judged};
ghost use Rattle.detector.specs.Condvar.{attempted, forget, create_condvar, destroy_condvar, begin_wait, notify_one, notify_all, end_wait};
ghost use Rattle.detector.specs.Refusals.{buffer_bytes};
ghost use Rattle.detector.specs.State.{tables, blank_queue, Valid};
ghost use Rattle.detector.specs.Promises.{Does};
ghost use Rattle.detector.specs.Code.{put_woken};

use crate::state::{CvWait, Detector, Pair, Queue};
use graph::Path;
use sets::{Set, THREADS};
use waits::{WaitMode, Waits};

// Removes the cv wait of every thread that waits for c.
fn forget(cv_waits: &mut [CvWait; THREADS], c: usize)
    ensures { cv_waits.new ≡ forget cv_waits.old c }
{
    for wait in cv_waits.iter_mut() {
        if usize::from(wait.condvar) == c {
            *wait = CvWait::ABSENT;
        }
    }
}

impl Detector {
    // cn: the condvar c is new. Empties its queue and changes nothing else, so the cv waits for c stay.
    pub fn create_condvar(&mut self, c: usize)
        requires { Valid self.old × (c < CONDVARS) }
        ensures { (b : List ℕ) → Does self.new 0 b b (create_condvar (tables self.old) c) }
    {
        self.condvars.cv_waiters[c] = Queue::new();
    }

    // cd: the condvar c is gone. Empties its queue and removes the cv wait of every thread that waits for c. Leaves
    // intents, edges and the woken threads.
    pub fn destroy_condvar(&mut self, c: usize)
        requires { Valid self.old × (c < CONDVARS) }
        ensures { (b : List ℕ) → Does self.new 0 b b (destroy_condvar (tables self.old) c) }
    {
        self.condvars.cv_waiters[c] = Queue::new();
        forget(&mut self.condvars.thread_wait_cv, c);
    }

    // cb: t begins to wait for c with the lock l. Puts the pair (t, l) at the end of c's queue, even if the queue has
    // it already, and sets t's cv wait. Leaves t's holds and l's owner.
    pub fn begin_wait(&mut self, t: usize, c: usize, l: usize)
        requires { Valid self.old × (t < THREADS) × (c < CONDVARS) × (l < LOCKS) × ((get_or self.old.condvars.cv_waiters c blank_queue).len < PLACES) }
        ensures { (b : List ℕ) → Does self.new 0 b b (begin_wait (tables self.old) t c l) }
    {
        self.condvars.cv_waiters[c].push(Pair {
            thread: t as u8,
            lock: l as u8,
        });
        self.condvars.thread_wait_cv[t] = CvWait {
            condvar: c as u8,
            lock: l as u8,
        };
    }

    // Wakes the thread of one pair: marks it as woken and, if the pair's lock has a mutex owner, registers its intent
    // for the mutex, filters a path that is found, and validates it if it passes. Returns the cycle to report.
    fn wake(&mut self, pair: Pair) -> Option<Path>
        requires { InRange self.old.waits × (pair.thread < THREADS) × (pair.lock < LOCKS) }
        ensures { (judged self.new.waits result ≡ attempted self.old.rwlock_readers self.old.waits pair) × (self.new ≡ put_woken self.old self.new.waits (with self.old.cv_woken pair.thread)) × InRange self.new.waits }
    {
        let t = usize::from(pair.thread);
        let l = usize::from(pair.lock);
        self.cv_woken = self.cv_woken.with(t);
        if self.waits.mutex_owners[l] < Waits::NOBODY {
            return self
                .waits
                .attempt(&self.rwlock_readers, t, l, WaitMode::Mutex);
        }
        None
    }

    // c1: c wakes one thread. Takes the first pair (t, l), if any, out of the queue and marks t as woken. If l has a
    // mutex owner, registers t's intent for the mutex, filters a path that is found, and validates it if it passes.
    // Leaves t's cv wait and the pairs after the first.
    pub fn notify_one(&mut self, c: usize, buf: &mut [u8]) -> usize
        requires { Valid self.old × (c < CONDVARS) × (buffer_bytes ≤ length buf.old) }
        ensures { Does self.new result buf.old buf.new (notify_one (tables self.old) c) }
    {
        let Some(pair) = self.condvars.cv_waiters[c].pop() else {
            return 0;
        };
        let cycle = self.wake(pair);
        self.report(cycle, buf)
    }

    // ca: c wakes all threads. Empties the queue, then treats each pair in order as c1 does; each may give a report.
    pub fn notify_all(&mut self, c: usize, buf: &mut [u8]) -> usize
        requires { Valid self.old × (c < CONDVARS) × (buffer_bytes ≤ length buf.old) }
        ensures { Does self.new result buf.old buf.new (notify_all (tables self.old) c) }
    {
        let queue = self.condvars.cv_waiters[c];
        self.condvars.cv_waiters[c] = Queue::new();
        let mut reports = 0;
        let mut used = 0;
        for &pair in queue.pairs() {
            if let Some(cycle) = self.wake(pair) {
                used = self.waits.report(&cycle, buf, used);
                reports += 1;
            }
        }
        reports
    }

    // ce: t ends its wait for c with the lock l. Takes all pairs (t, l) out of c's queue, removes t's cv wait and its
    // mark as woken, and clears t's intent.
    pub fn end_wait(&mut self, t: usize, c: usize, l: usize)
        requires { Valid self.old × (t < THREADS) × (c < CONDVARS) × (l < LOCKS) }
        ensures { (b : List ℕ) → Does self.new 0 b b (end_wait (tables self.old) t c l) }
    {
        self.condvars.cv_waiters[c].leave(t, l);
        self.condvars.thread_wait_cv[t] = CvWait::ABSENT;
        self.waits.clear_wait_intent(t);
        self.cv_woken = self.cv_woken.without(t);
    }
}
