// The state: fixed tables, which the events change in place.
ghost use Rattle.std.specs.Prelude.{◌≡◌, [], ◌∷◌, ◌++◌, ◌<◌, slice_get, IfSome};
ghost use Rattle.sets.specs.Limits.{THREADS, LOCKS};
ghost use Rattle.detector.specs.Limits.{PLACES};
ghost use Rattle.detector.specs.Tables as rules;
ghost use Rattle.detector.specs.Condvar.{leave};
ghost use Rattle.detector.specs.State.{pairs_of, tables, Queued, Valid};
ghost use Rattle.detector.specs.Code.{empty_queue, tail_of};

use sets::{LOCKS, THREADS};
use waits::Waits;

// A thread in a condvar's queue, and the lock with which it waits.
#[derive(Clone, Copy, PartialEq, Eq)]
pub struct Pair {
    pub thread: u8,
    pub lock: u8,
}

// Holds the pairs of a condvar's queue in order. The places after the queue's end hold 0.
#[derive(Clone, Copy)]
pub struct Queue {
    pub pairs: [Pair; Queue::PLACES],
    pub len: u8,
}

// The cv wait of a thread: the condvar it waits for, and the lock. Without one the condvar is none, and the lock is 0.
#[derive(Clone, Copy)]
pub struct CvWait {
    pub condvar: u8,
    pub lock: u8,
}

// The condvars: each one's queue, and each thread's cv wait.
#[derive(Clone, Copy)]
pub struct Condvars {
    pub cv_waiters: [Queue; Detector::CONDVARS],
    pub thread_wait_cv: [CvWait; THREADS],
}

// The state: the waits, the woken threads, the reader counts, whose places `waits::place` gives, and the condvars.
#[derive(Clone, Copy)]
pub struct Detector {
    pub waits: Waits,
    pub cv_woken: u32,
    pub rwlock_readers: [u8; Waits::COUNTS],
    pub condvars: Condvars,
}

impl Pair {
    // Stands at the places of a queue that are not in use.
    pub const NONE: Pair = Pair { thread: 0, lock: 0 };
}

impl Queue {
    // How many pairs a queue has room for.
    pub const PLACES: usize = 32;
    // The length of a full queue.
    pub const FULL: u8 = Queue::PLACES as u8;

    // Returns the empty queue, with 0 at every place.
    pub(crate) fn new() -> Queue
        ensures { (result ≡ empty_queue) × Queued result }
    {
        Queue {
            pairs: [Pair::NONE; Queue::PLACES],
            len: 0,
        }
    }

    // Returns the pairs of the queue, in order.
    pub fn pairs(&self) -> &[Pair]
        requires { Queued self.now }
        ensures { result.now ≡ pairs_of self.now }
    {
        &self.pairs[..usize::from(self.len)]
    }

    // Puts a pair at the end of the queue.
    pub(crate) fn push(&mut self, pair: Pair)
        requires { Queued self.old × (self.old.len < PLACES) × (pair.thread < THREADS) × (pair.lock < LOCKS) }
        ensures { (pairs_of self.new ≡ pairs_of self.old ++ pair ∷ []) × Queued self.new }
    {
        self.pairs[usize::from(self.len)] = pair;
        self.len += 1;
    }

    // Takes the first pair out of the queue and returns it, or None if the queue is empty.
    pub(crate) fn pop(&mut self) -> Option<Pair>
        requires { Queued self.old }
        ensures { (result ≡ slice_get (pairs_of self.old) 0) × (pairs_of self.new ≡ tail_of (pairs_of self.old)) × Queued self.new × IfSome result (λ p. (p.thread < THREADS) × (p.lock < LOCKS)) }
    {
        let (first, others) = self.pairs().split_first()?;
        let first = *first;
        let mut left = Queue::new();
        for &pair in others {
            left.push(pair);
        }
        *self = left;
        Some(first)
    }

    // Takes every pair (t, l) out of the queue.
    pub(crate) fn leave(&mut self, t: usize, l: usize)
        requires { Queued self.old × (t < THREADS) × (l < LOCKS) }
        ensures { (pairs_of self.new ≡ leave t l (pairs_of self.old)) × Queued self.new }
    {
        let gone = Pair {
            thread: t as u8,
            lock: l as u8,
        };
        let mut left = Queue::new();
        for &pair in self.pairs() {
            if pair != gone {
                left.push(pair);
            }
        }
        *self = left;
    }
}

impl CvWait {
    // Stands for no condvar.
    pub const NONE: u8 = Detector::CONDVARS as u8;
    // Stands for no cv wait.
    pub const ABSENT: CvWait = CvWait {
        condvar: CvWait::NONE,
        lock: 0,
    };
}

impl Detector {
    // How many threads, locks and condvars there are. Their numbers start at 0.
    pub const THREADS: usize = THREADS;

    pub const LOCKS: usize = LOCKS;

    pub const CONDVARS: usize = 16;
    // The bytes that the buffer must have: room for 32 of the longest reports.
    pub const BUFFER_BYTES: usize = Queue::PLACES * Waits::REPORT_BYTES;

    // Returns the empty state: empty tables, counts of 0, empty queues, no cv waits, and no thread woken.
    pub fn new() -> Detector
        ensures { (tables result ≡ rules.empty) × Valid result }
    {
        Detector {
            waits: Waits::new(),
            cv_woken: 0,
            rwlock_readers: [0; Waits::COUNTS],
            condvars: Condvars {
                cv_waiters: [Queue::new(); Detector::CONDVARS],
                thread_wait_cv: [CvWait::ABSENT; THREADS],
            },
        }
    }
}
