// The events of a mutex.
ghost use Rattle.std.specs.Prelude.{◌≡◌, List, ℕ, ◌<◌, ◌≤◌, length};
ghost use Rattle.sets.specs.Limits.{THREADS, LOCKS};
ghost use Rattle.waits.specs.Tables.{InRange};
ghost use Rattle.waits.specs.Validate.{names};
ghost use Rattle.detector.specs.Mutex.{clear_naming, purge, mutex_attempt, complete_acquire, release_mutex, destroy_mutex};
ghost use Rattle.detector.specs.Refusals.{hint_of, buffer_bytes};
ghost use Rattle.detector.specs.State.{tables, Valid};
ghost use Rattle.detector.specs.Promises.{Does};
ghost use Rattle.detector.specs.Code.{put_waits, disowned};

use crate::state::Detector;
use sets::{LOCKS, Set, THREADS};
use waits::{Outcome, WaitIntent, WaitMode, Waits};

// Returns true if the intent names l.
fn names(intent: Option<WaitIntent>, l: usize) -> bool
    ensures { result ≡ names intent l }
{
    intent.is_some_and(|i| usize::from(i.lock_id) == l)
}

// Makes nobody the owner of l, or its writer, if t was. The table has the owners or the writers.
pub(crate) fn disown(owners: &mut [u8; LOCKS], t: usize, l: usize)
    requires { l < LOCKS }
    ensures { owners.new ≡ disowned owners.old t l }
{
    if usize::from(owners[l]) == t {
        owners[l] = Waits::NOBODY;
    }
}

impl Detector {
    // ma: t attempts to take the mutex l, with the outcome o. If t took it, does as mc. If t was blocked, makes the
    // hinted thread, if any, the owner, registers t's intent, filters a path found, and validates it if it passes.
    pub fn acquire_slow_with_recheck(
        &mut self,
        t: usize,
        l: usize,
        o: Outcome,
        buf: &mut [u8],
    ) -> usize
        requires { Valid self.old × (t < THREADS) × (l < LOCKS) × (hint_of o < THREADS) × (buffer_bytes ≤ length buf.old) }
        ensures { Does self.new result buf.old buf.new (mutex_attempt (tables self.old) t l o) }
    {
        match o {
            Outcome::Took => return self.complete_acquire(t, l, buf),
            Outcome::Blocked => {}
            Outcome::Hinted(h) => self.waits.mutex_owners[l] = h as u8,
        }
        self.block(t, l, WaitMode::Mutex, buf)
    }

    // mc: t has the mutex l. Makes t its owner, adds l to t's holds, clears t's intent, refreshes l's waiters, and
    // validates a path that the refresh finds, without the filter.
    pub fn complete_acquire(&mut self, t: usize, l: usize, buf: &mut [u8]) -> usize
        requires { Valid self.old × (t < THREADS) × (l < LOCKS) × (buffer_bytes ≤ length buf.old) }
        ensures { Does self.new result buf.old buf.new (complete_acquire (tables self.old) t l) }
    {
        self.waits.mutex_owners[l] = t as u8;
        self.take(t, l, buf)
    }

    // mr: t releases the mutex l. Makes nobody its owner if t was. In any case takes l out of t's holds and refreshes
    // l's waiters. A path that the refresh finds is dropped, so nothing is reported.
    pub fn release_mutex(&mut self, t: usize, l: usize)
        requires { Valid self.old × (t < THREADS) × (l < LOCKS) }
        ensures { (b : List ℕ) → Does self.new 0 b b (release_mutex (tables self.old) t l) }
    {
        disown(&mut self.waits.mutex_owners, t, l);
        self.waits.thread_holds[t] = self.waits.thread_holds[t].without(l);
        let _ = self.waits.refresh_waiters_for_lock(&self.rwlock_readers, l);
    }

    // Clears the intent of every thread whose intent names l, in any mode.
    fn clear_naming(&mut self, l: usize)
        requires { InRange self.old.waits }
        ensures { (self.new ≡ put_waits self.old (clear_naming self.old.waits l)) × InRange self.new.waits }
    {
        let intents = self.waits.thread_waits_for;
        for (t, &intent) in intents.iter().enumerate() {
            if names(intent, l) {
                self.waits.clear_wait_intent(t);
            }
        }
    }

    // Takes l out of all holds and empties its waiters.
    pub(crate) fn purge(&mut self, l: usize)
        requires { InRange self.old.waits × (l < LOCKS) }
        ensures { (self.new ≡ put_waits self.old (purge self.old.waits l)) × InRange self.new.waits }
    {
        for t in 0..THREADS {
            self.waits.thread_holds[t] = self.waits.thread_holds[t].without(l);
        }
        self.waits.lock_waiters[l] = 0;
    }

    // md: the mutex l is gone. Makes nobody its owner, clears every intent that names l, takes l out of all holds, and
    // empties its waiters. Refreshes nothing.
    pub fn destroy_mutex(&mut self, l: usize)
        requires { Valid self.old × (l < LOCKS) }
        ensures { (b : List ℕ) → Does self.new 0 b b (destroy_mutex (tables self.old) l) }
    {
        self.waits.mutex_owners[l] = Waits::NOBODY;
        self.clear_naming(l);
        self.purge(l);
    }
}
