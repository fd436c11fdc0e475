// An event is one call on a mutex, a readers-writer lock or a condvar, as it is handed to the detector.
use waits::{Outcome, Tried};

// There is a case for each word, in this order: ma mc mr md, ra rc rt rr, wa wc wr rd, cn cd cb c1 ca ce. A case has
// the fields of its word in the order of a script's line. The last field of an attempt is its outcome.
#[derive(Clone, Copy)]
pub enum Event {
    MutexAttempt(usize, usize, Outcome),
    MutexAcquired(usize, usize),
    MutexReleased(usize, usize),
    MutexExit(usize),
    RwReadAttempt(usize, usize, Outcome),
    RwReadAcquired(usize, usize),
    RwReadTry(usize, usize, Tried),
    RwReadReleased(usize, usize),
    RwWriteAttempt(usize, usize, Outcome),
    RwWriteAcquired(usize, usize),
    RwWriteReleased(usize, usize),
    RwExit(usize),
    CondvarSpawn(usize),
    CondvarExit(usize),
    CondvarWaitBegin(usize, usize, usize),
    CondvarNotifyOne(usize),
    CondvarNotifyAll(usize),
    CondvarWaitEnd(usize, usize, usize),
}
