// This module reads a line, given without its line feed, as an event.
ghost use Rattle.std.specs.Prelude.{◌≡◌, ◌≤◌, length, drop};
ghost use Rattle.text.specs.Fields.{fields};
ghost use Rattle.script.specs.Words.{no_hint, as_number, shape_of};
ghost use Rattle.script.specs.Lines.{after_two, after_one, after_word, line_of};

use crate::outcome::read_outcome;
use detector::Event;
use text::{field, read_number};
use waits::{Outcome, Tried};

// Returns the event of the word w with one number after it, or None if w takes other fields or is no word.
#[tactic(auto, using(crate::proofs::Table::one_none))]
fn one(w: &[u8], a: usize) -> Option<Event>
    ensures { result ≡ (shape_of w.now).one a }
{
    match w {
        b"md" => Some(Event::MutexExit(a)),
        b"rd" => Some(Event::RwExit(a)),
        b"cn" => Some(Event::CondvarSpawn(a)),
        b"cd" => Some(Event::CondvarExit(a)),
        b"c1" => Some(Event::CondvarNotifyOne(a)),
        b"ca" => Some(Event::CondvarNotifyAll(a)),
        _ => None,
    }
}

// Returns the event of the word w with two numbers after it, or None if w takes other fields or is no word.
#[tactic(auto, using(crate::proofs::Table::two_none))]
fn two(w: &[u8], t: usize, l: usize) -> Option<Event>
    ensures { result ≡ (shape_of w.now).two t l }
{
    match w {
        b"mc" => Some(Event::MutexAcquired(t, l)),
        b"mr" => Some(Event::MutexReleased(t, l)),
        b"rc" => Some(Event::RwReadAcquired(t, l)),
        b"rr" => Some(Event::RwReadReleased(t, l)),
        b"wc" => Some(Event::RwWriteAcquired(t, l)),
        b"wr" => Some(Event::RwWriteReleased(t, l)),
        _ => None,
    }
}

// Returns how a try came out, or None if the outcome is a hint, which `rt` does not take.
fn no_hint(o: Outcome) -> Option<Tried>
    ensures { result ≡ no_hint o }
{
    match o {
        Outcome::Took => Some(Tried::Taken),
        Outcome::Blocked => Some(Tried::Missed),
        Outcome::Hinted(_) => None,
    }
}

// Returns the number of a third field, or None if it is none. That field is a lock and was read as an outcome, so its
// number comes as a hint.
fn as_number(o: Outcome) -> Option<usize>
    ensures { result ≡ as_number o }
{
    match o {
        Outcome::Hinted(n) => Some(n),
        _ => None,
    }
}

// Returns the event of the word w with two numbers and an outcome after it, or None if w takes other fields or is no
// word.
#[tactic(auto, using(crate::proofs::Table::three_none))]
fn three(w: &[u8], a: usize, b: usize, o: Outcome) -> Option<Event>
    ensures { result ≡ (shape_of w.now).three a b o }
{
    match w {
        b"ma" => Some(Event::MutexAttempt(a, b, o)),
        b"ra" => Some(Event::RwReadAttempt(a, b, o)),
        b"wa" => Some(Event::RwWriteAttempt(a, b, o)),
        b"rt" => Some(Event::RwReadTry(a, b, no_hint(o)?)),
        b"cb" => Some(Event::CondvarWaitBegin(a, b, as_number(o)?)),
        b"ce" => Some(Event::CondvarWaitEnd(a, b, as_number(o)?)),
        _ => None,
    }
}

// Reads the third field after the word w, which starts at `at` and must be the last. Returns the event, or None if
// there is none.
fn after_two(line: &[u8], w: &[u8], a: usize, b: usize, at: usize) -> Option<Event>
    requires { at ≤ length line.now }
    ensures { result ≡ after_two (shape_of w.now) (fields (drop at line.now)) a b }
{
    let f = field(line, at);
    if at + f.len() < line.len() {
        return None;
    }
    three(w, a, b, read_outcome(f)?)
}

// Reads the second field after the word w, which starts at `at`, and the field after it if there is one.
// Returns the event, or None if there is none.
fn after_one(line: &[u8], w: &[u8], a: usize, at: usize) -> Option<Event>
    requires { at ≤ length line.now }
    ensures { result ≡ after_one (shape_of w.now) (fields (drop at line.now)) a }
{
    let f = field(line, at);
    let e = at + f.len();
    let b = read_number(f)?;
    if e < line.len() {
        return after_two(line, w, a, b, e + 1);
    }
    two(w, a, b)
}

// Reads the fields after the word w, the first of which starts at `at`. Returns the event, or None if there is none.
fn after_word(line: &[u8], w: &[u8], at: usize) -> Option<Event>
    requires { at ≤ length line.now }
    ensures { result ≡ after_word (shape_of w.now) (fields (drop at line.now)) }
{
    let f = field(line, at);
    let e = at + f.len();
    let a = read_number(f)?;
    if e < line.len() {
        return after_one(line, w, a, e + 1);
    }
    one(w, a)
}

// Returns the event of a line, or None, which is refusal 1, if it has more than 40 bytes or its word and fields make no
// event.
pub fn read_line(line: &[u8]) -> Option<Event>
    ensures { result ≡ line_of line.now }
{
    if line.len() > 40 {
        return None;
    }
    let w = field(line, 0);
    let e = w.len();
    if e < line.len() {
        return after_word(line, w, e + 1);
    }
    None
}
