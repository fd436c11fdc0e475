// The test of a lent state for refusal 2: numbers in range, no queue too long, and 0 at every place not in use.
ghost use Rattle.std.specs.Prelude.{◌≡◌, true, ℕ, ◌<◌, ltb, get_or, length};
ghost use Rattle.std.specs.List.{list_all};
ghost use Rattle.sets.specs.Limits.{THREADS, LOCKS};
ghost use Rattle.detector.specs.Limits.{CONDVARS, PLACES};
ghost use Rattle.sets.specs.Below.{every};
ghost use Rattle.waits.specs.Tables.{InRange, lock_of};
ghost use Rattle.detector.specs.State.{blank_queue, range_test, place_test, queue_test, cv_wait_test, valid_test, Valid};

use crate::state::{CvWait, Detector, Pair, Queue};
use sets::{LOCKS, THREADS};
use waits::{WaitIntent, Waits, lock_of};

// The lowest byte that is no thread.
const THREADS_END: u8 = THREADS as u8;

// The lowest byte that is no lock.
const LOCKS_END: u8 = LOCKS as u8;

// Returns true if every intent names a lock below 64. The prover does not know that an array of intents in a lent struct
// has 32 places, so the contract states it too.
fn intents_in_range(intents: &[Option<WaitIntent>; THREADS]) -> bool
    ensures { (result ≡ list_all (λ i. ltb (lock_of i) LOCKS) intents.now) × (length intents.now ≡ THREADS) }
{
    intents.iter().all(|&i| lock_of(i) < LOCKS_END)
}

// Returns true if the table has a thread below 32 or nobody for every lock.
fn threads_in_range(of: &[u8; LOCKS]) -> bool
    ensures { result ≡ list_all (λ o. ltb o 33) of.now }
{
    of.iter().all(|&thread| thread <= Waits::NOBODY)
}

// Returns true if the intents, the owners and the writers are in range. The contract states the lengths of their tables
// for the caller, where the prover does not know them.
fn waits_in_range(w: &Waits) -> bool
    ensures { (result ≡ range_test w.now) × (result ≡ true → InRange w.now) × (length w.now.thread_waits_for ≡ THREADS) × (length w.now.mutex_owners ≡ LOCKS) × (length w.now.rwlock_writer ≡ LOCKS) }
{
    intents_in_range(&w.thread_waits_for)
        && threads_in_range(&w.mutex_owners)
        && threads_in_range(&w.rwlock_writer)
}

// Returns true if the pair p may be at place k of a queue of n pairs: in range before the queue's end, 0 after it.
fn place_valid(n: usize, k: usize, p: Pair) -> bool
    ensures { result ≡ place_test n k p }
{
    if k < n {
        p.thread < THREADS_END && p.lock < LOCKS_END
    } else {
        p == Pair::NONE
    }
}

// Returns true if a queue is valid: at most 32 pairs, all in range, and 0 after its end. The prover knows that a queue
// by itself has 32 places, but not that one in an array has, so the contract states it too.
fn queue_valid(q: Queue) -> bool
    ensures { (result ≡ queue_test q) × (length q.pairs ≡ PLACES) }
{
    let n = usize::from(q.len);
    n <= Queue::PLACES
        && q.pairs
            .iter()
            .enumerate()
            .all(|(k, &p)| place_valid(n, k, p))
}

// Returns true if every queue is valid.
fn queues_valid(qs: &[Queue; Detector::CONDVARS]) -> bool
    ensures { (result ≡ every (λ c. queue_test (get_or qs.now c blank_queue)) CONDVARS) × (result ≡ true → (c : ℕ) → c < CONDVARS → length (get_or qs.now c blank_queue).pairs ≡ PLACES) }
{
    for &q in qs {
        if !queue_valid(q) {
            return false;
        }
    }
    true
}

// Returns true if a cv wait is valid: condvar and lock in range, or no condvar and the lock 0.
fn cv_wait_valid(v: CvWait) -> bool
    ensures { result ≡ cv_wait_test v }
{
    if v.condvar == CvWait::NONE {
        v.lock == 0
    } else {
        v.condvar < CvWait::NONE && v.lock < LOCKS_END
    }
}

// Returns true if every cv wait is valid.
fn cv_waits_valid(vs: &[CvWait; THREADS]) -> bool
    ensures { result ≡ list_all cv_wait_test vs.now }
{
    vs.iter().all(|&v| cv_wait_valid(v))
}

impl Detector {
    // Returns true if the state is valid. A step refuses any other state with 2.
    pub fn is_valid(&self) -> bool
        ensures { (result ≡ valid_test self.now) × (result ≡ true → Valid self.now) }
    {
        waits_in_range(&self.waits)
            && queues_valid(&self.condvars.cv_waiters)
            && cv_waits_valid(&self.condvars.thread_wait_cv)
    }
}
