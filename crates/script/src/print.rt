// This module puts an event as a line of a script into a buffer that the caller lends.
ghost use Rattle.std.specs.Prelude.{◌≡◌, [], ◌∷◌};
ghost use Rattle.text.specs.Decimal.{decimal, with_tab, joined};
ghost use Rattle.text.specs.Promises.{Room, Put};
ghost use Rattle.script.specs.Printed.{outcome_text, event_text};

use detector::Event;
use text::{put_bytes, put_field};
use waits::Outcome;

// The line of any event takes at most this many bytes, whatever its numbers are.
pub const EVENT_BYTES: usize = 65;

// Puts a tab and an outcome, and returns the place after it.
fn put_outcome(out: &mut [u8], at: usize, o: Outcome) -> usize
    requires { Room out.old at (with_tab (outcome_text o)) }
    ensures { Put out.old at (with_tab (outcome_text o)) out.new result }
{
    match o {
        Outcome::Took => put_bytes(out, at, b"\ttook"),
        Outcome::Blocked => put_bytes(out, at, b"\t-"),
        Outcome::Hinted(h) => put_field(out, at, h),
    }
}

// Puts the word w and the number a, and returns the place after them.
fn put_one(out: &mut [u8], at: usize, w: &[u8], a: usize) -> usize
    requires { Room out.old at (joined (w.now ∷ decimal a ∷ [])) }
    ensures { Put out.old at (joined (w.now ∷ decimal a ∷ [])) out.new result }
{
    let p = put_bytes(out, at, w);
    put_field(out, p, a)
}

// Puts the word w and the numbers a and b, and returns the place after them.
fn put_two(out: &mut [u8], at: usize, w: &[u8], a: usize, b: usize) -> usize
    requires { Room out.old at (joined (w.now ∷ decimal a ∷ decimal b ∷ [])) }
    ensures { Put out.old at (joined (w.now ∷ decimal a ∷ decimal b ∷ [])) out.new result }
{
    let p = put_one(out, at, w, a);
    put_field(out, p, b)
}

// Puts the word w, the numbers a and b and the outcome o, and returns the place after them.
fn put_three(out: &mut [u8], at: usize, w: &[u8], a: usize, b: usize, o: Outcome) -> usize
    requires { Room out.old at (joined (w.now ∷ decimal a ∷ decimal b ∷ outcome_text o ∷ [])) }
    ensures { Put out.old at (joined (w.now ∷ decimal a ∷ decimal b ∷ outcome_text o ∷ [])) out.new result }
{
    let p = put_two(out, at, w, a, b);
    put_outcome(out, p, o)
}

// Puts the line of an event without a line feed, and returns the place after it. The lock of `cb` and `ce` is printed as
// a hint is.
#[tactic(auto, unfolding(crate::specs::Printed::event_text, crate::specs::Printed::parts_text))]
pub fn put_event(out: &mut [u8], at: usize, e: Event) -> usize
    requires { Room out.old at (event_text e) }
    ensures { Put out.old at (event_text e) out.new result }
{
    match e {
        Event::MutexAttempt(t, l, o) => put_three(out, at, b"ma", t, l, o),
        Event::MutexAcquired(t, l) => put_two(out, at, b"mc", t, l),
        Event::MutexReleased(t, l) => put_two(out, at, b"mr", t, l),
        Event::MutexExit(l) => put_one(out, at, b"md", l),
        Event::RwReadAttempt(t, l, o) => put_three(out, at, b"ra", t, l, o),
        Event::RwReadAcquired(t, l) => put_two(out, at, b"rc", t, l),
        Event::RwReadTry(t, l, o) => put_three(out, at, b"rt", t, l, Outcome::from(o)),
        Event::RwReadReleased(t, l) => put_two(out, at, b"rr", t, l),
        Event::RwWriteAttempt(t, l, o) => put_three(out, at, b"wa", t, l, o),
        Event::RwWriteAcquired(t, l) => put_two(out, at, b"wc", t, l),
        Event::RwWriteReleased(t, l) => put_two(out, at, b"wr", t, l),
        Event::RwExit(l) => put_one(out, at, b"rd", l),
        Event::CondvarSpawn(c) => put_one(out, at, b"cn", c),
        Event::CondvarExit(c) => put_one(out, at, b"cd", c),
        Event::CondvarWaitBegin(t, c, l) => put_three(out, at, b"cb", t, c, Outcome::Hinted(l)),
        Event::CondvarNotifyOne(c) => put_one(out, at, b"c1", c),
        Event::CondvarNotifyAll(c) => put_one(out, at, b"ca", c),
        Event::CondvarWaitEnd(t, c, l) => put_three(out, at, b"ce", t, c, Outcome::Hinted(l)),
    }
}
