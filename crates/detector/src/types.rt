// Every state that the code can have is `Typed`. `typed` does nothing and is here for its contract alone. The prover
// knows what the types say of a struct by itself, but not of one in an array, so each struct of a table is read out.
ghost use Rattle.std.specs.Prelude.{ℕ, ◌<◌, get_or, None};
ghost use Rattle.detector.specs.Limits.{CONDVARS};
ghost use Rattle.waits.specs.Tables.{lock_of};
ghost use Rattle.detector.specs.Tables.{blank_cv_wait};
ghost use Rattle.detector.specs.State.{blank_queue};
ghost use Rattle.detector.specs.Typed.{TypedQueue, TypedCvWait, Typed};

use crate::state::{CvWait, Detector, Pair, Queue};
use sets::THREADS;
use waits::{WaitIntent, lock_of};

// Shows that the numbers of a pair are bytes.
fn pair(p: Pair)
    ensures { (p.thread < 256) × (p.lock < 256) }
{}

// Shows that a queue is typed.
fn queue(q: Queue)
    ensures { TypedQueue q }
{
    for p in q.pairs {
        pair(p);
    }
}

// Shows that every queue is typed.
fn queues(qs: [Queue; Detector::CONDVARS])
    ensures { (c : ℕ) → c < CONDVARS → TypedQueue (get_or qs c blank_queue) }
{
    for q in qs {
        queue(q);
    }
}

// Shows that a cv wait is typed.
fn cv_wait(v: CvWait)
    ensures { TypedCvWait v }
{}

// Shows that every cv wait is typed.
fn cv_waits(vs: [CvWait; THREADS])
    ensures { (t : ℕ) → TypedCvWait (get_or vs t blank_cv_wait) }
{
    for v in vs {
        cv_wait(v);
    }
}

// Shows that the lock of every intent is a byte, since it is what `lock_of` returns.
fn intents(is: [Option<WaitIntent>; THREADS])
    ensures { (t : ℕ) → lock_of (get_or is t None) < 256 }
{
    for i in is {
        lock_of(i);
    }
}

// Shows that the state is typed.
pub fn typed(d: Detector)
    ensures { Typed d }
{
    intents(d.waits.thread_waits_for);
    queues(d.condvars.cv_waiters);
    cv_waits(d.condvars.thread_wait_cv);
}
