// A step: one event, in any state.
ghost use Rattle.std.specs.Prelude.{◌≡◌, length};
ghost use Rattle.detector.specs.Events.{apply};
ghost use Rattle.detector.specs.Refusals.{refusal};
ghost use Rattle.detector.specs.State.{tables, Valid};
ghost use Rattle.detector.specs.Promises.{Does, Replies, Steps};

use crate::event::Event;
use crate::refused::Refusal;
use crate::state::Detector;

impl Detector {
    // Takes a step in any state and returns the number of reports. Refuses it with 2 if the state is not valid, and
    // else refuses the event or serves it. A refusal leaves the state and the buffer as they were.
    pub fn step(&mut self, e: Event, buf: &mut [u8]) -> Result<usize, Refusal>
        ensures { Steps self.old e self.new result buf.old buf.new }
    {
        if !self.is_valid() {
            return Err(Refusal::State);
        }
        self.step_within(e, buf)
    }

    // Takes a step in a state that is known to be valid, so the state is not tested. Refuses the event or serves it.
    pub fn step_within(&mut self, e: Event, buf: &mut [u8]) -> Result<usize, Refusal>
        requires { Valid self.old }
        ensures { Replies (refusal (tables self.old) (length buf.old) e) self.old e self.new result buf.old buf.new }
    {
        self.refusal(e, buf.len())?;
        Ok(self.apply(e, buf))
    }

    // Serves an event that is not refused, by the rule of its word. Returns the number of reports.
    fn apply(&mut self, e: Event, buf: &mut [u8]) -> usize
        requires { Valid self.old × (refusal (tables self.old) (length buf.old) e ≡ 0) }
        ensures { Does self.new result buf.old buf.new (apply e (tables self.old)) }
    {
        match e {
            Event::MutexAttempt(t, l, o) => return self.acquire_slow_with_recheck(t, l, o, buf),
            Event::MutexAcquired(t, l) => return self.complete_acquire(t, l, buf),
            Event::MutexReleased(t, l) => self.release_mutex(t, l),
            Event::MutexExit(l) => self.destroy_mutex(l),
            Event::RwReadAttempt(t, l, o) => {
                return self.acquire_read_slow_with_recheck(t, l, o, buf);
            }
            Event::RwReadAcquired(t, l) => self.complete_read(t, l),
            Event::RwReadTry(t, l, o) => self.try_read_nonblocking(t, l, o),
            Event::RwReadReleased(t, l) => self.release_read(t, l),
            Event::RwWriteAttempt(t, l, o) => {
                return self.acquire_write_slow_with_recheck(t, l, o, buf);
            }
            Event::RwWriteAcquired(t, l) => return self.complete_write(t, l, buf),
            Event::RwWriteReleased(t, l) => self.release_write(t, l),
            Event::RwExit(l) => self.destroy_rwlock(l),
            Event::CondvarSpawn(c) => self.create_condvar(c),
            Event::CondvarExit(c) => self.destroy_condvar(c),
            Event::CondvarWaitBegin(t, c, l) => self.begin_wait(t, c, l),
            Event::CondvarNotifyOne(c) => return self.notify_one(c, buf),
            Event::CondvarNotifyAll(c) => return self.notify_all(c, buf),
            Event::CondvarWaitEnd(t, c, l) => self.end_wait(t, c, l),
        }
        0
    }
}
