// The refusals of an event: by its numbers and the buffer, and by what is full.
ghost use Rattle.std.specs.Prelude.{◌≡◌, ◌<◌};
ghost use Rattle.sets.specs.Limits.{THREADS, LOCKS};
ghost use Rattle.detector.specs.Limits.{CONDVARS};
ghost use Rattle.detector.specs.Refusals.{hint_of, numbers, numbers_of, outside, Inside, full_queue, full_count, full, refusal};
ghost use Rattle.detector.specs.Numbered.{refused_by};
ghost use Rattle.detector.specs.State.{tables, Valid};

use crate::event::Event;
use crate::refused::Refusal;
use crate::state::{Detector, Queue};
use waits::{Outcome, Tried, place};

// Returns the thread that a hint names, or 0 if there is no hint.
fn hint_of(o: Outcome) -> usize
    ensures { result ≡ hint_of o }
{
    match o {
        Outcome::Took | Outcome::Blocked => 0,
        Outcome::Hinted(h) => h,
    }
}

// Refuses a thread or a hint that is out of range, else such a lock, else such a condvar, else a buffer with too little
// room.
fn outside(t: usize, h: usize, l: usize, c: usize, room: usize) -> Result<(), Refusal>
    ensures { refused_by result ≡ outside (numbers t h l c) room 0 }
{
    if t >= Detector::THREADS || h >= Detector::THREADS {
        return Err(Refusal::Thread);
    }
    if l >= Detector::LOCKS {
        return Err(Refusal::Lock);
    }
    if c >= Detector::CONDVARS {
        return Err(Refusal::Condvar);
    }
    if room < Detector::BUFFER_BYTES {
        return Err(Refusal::Buffer);
    }
    Ok(())
}

// Refuses an event by its numbers and the room in the buffer. A number that the event does not have counts as 0, which
// is in range.
fn numbered(e: Event, room: usize) -> Result<(), Refusal>
    ensures { refused_by result ≡ outside (numbers_of e) room 0 }
{
    match e {
        Event::MutexAttempt(t, l, o)
        | Event::RwReadAttempt(t, l, o)
        | Event::RwWriteAttempt(t, l, o) => outside(t, hint_of(o), l, 0, room),
        Event::MutexAcquired(t, l)
        | Event::MutexReleased(t, l)
        | Event::RwReadAcquired(t, l)
        | Event::RwReadTry(t, l, _)
        | Event::RwReadReleased(t, l)
        | Event::RwWriteAcquired(t, l)
        | Event::RwWriteReleased(t, l) => outside(t, 0, l, 0, room),
        Event::MutexExit(l) | Event::RwExit(l) => outside(0, 0, l, 0, room),
        Event::CondvarSpawn(c)
        | Event::CondvarExit(c)
        | Event::CondvarNotifyOne(c)
        | Event::CondvarNotifyAll(c) => outside(0, 0, 0, c, room),
        Event::CondvarWaitBegin(t, c, l) | Event::CondvarWaitEnd(t, c, l) => {
            outside(t, 0, l, c, room)
        }
    }
}

impl Detector {
    // Refuses if the queue of c is full.
    fn full_queue(&self, c: usize) -> Result<(), Refusal>
        requires { Valid self.now × (c < CONDVARS) }
        ensures { refused_by result ≡ full_queue (tables self.now) c }
    {
        if self.condvars.cv_waiters[c].len < Queue::FULL {
            Ok(())
        } else {
            Err(Refusal::Queue)
        }
    }

    // Refuses if t's count for l is at its limit.
    fn full_count(&self, t: usize, l: usize) -> Result<(), Refusal>
        requires { (t < THREADS) × (l < LOCKS) }
        ensures { refused_by result ≡ full_count (tables self.now) t l }
    {
        if self.rwlock_readers[place(t, l)] == u8::MAX {
            Err(Refusal::Count)
        } else {
            Ok(())
        }
    }

    // Refuses the event if it needs room in a queue or in a count that is full.
    fn full(&self, e: Event, room: usize) -> Result<(), Refusal>
        requires { Valid self.now × Inside (numbers_of e) room }
        ensures { refused_by result ≡ full (tables self.now) e }
    {
        match e {
            Event::RwReadAttempt(t, l, Outcome::Took)
            | Event::RwReadAcquired(t, l)
            | Event::RwReadTry(t, l, Tried::Taken) => self.full_count(t, l),
            Event::CondvarWaitBegin(_, c, _) => self.full_queue(c),
            _ => Ok(()),
        }
    }

    // Refuses the event with the lowest refusal that it gets in a valid state with a buffer of `room` bytes, if any.
    pub fn refusal(&self, e: Event, room: usize) -> Result<(), Refusal>
        requires { Valid self.now }
        ensures { refused_by result ≡ refusal (tables self.now) room e }
    {
        numbered(e, room)?;
        self.full(e, room)
    }
}
