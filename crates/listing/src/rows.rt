// This module puts the tables whose cells are no sets. Each function returns the place after the line that it
// puts.
ghost use Rattle.std.specs.Prelude.{map, ◌<◌, ◌≤◌};
ghost use Rattle.sets.specs.Limits.{LOCKS};
ghost use Rattle.text.specs.Promises.{Room, Put};
ghost use Rattle.detector.specs.State.{pairs_of, Queued};
ghost use Rattle.listing.specs.Listing.{table_text, owners_items, readers_of, readers_items, queue_items, queues_items, cv_waits_items, intents_items};
ghost use Rattle.listing.specs.Promises.{Roomy, Lists, Queues};

use crate::line::Line;
use detector::{CvWait, Detector, Queue};
use sets::{LOCKS, THREADS};
use waits::{WaitIntent, Waits, place};

impl<'a> Line<'a> {
    // Puts an item for each thread that reads the lock l.
    fn readers_of(&mut self, counts: &[u8; Waits::COUNTS], l: usize)
        requires { (self.old.start ≤ self.old.at) × (l < LOCKS) × Roomy self.old (readers_of counts.now l) }
        ensures { Lists self.old (readers_of counts.now l) self.new }
    {
        for t in 0..THREADS {
            self.reader(t, l, counts[place(t, l)]);
        }
    }

    // Puts an item for each pair in the queue q of the condvar c, in the order of the queue.
    fn queue(&mut self, c: usize, q: &Queue)
        requires { (self.old.start ≤ self.old.at) × Queued q.now × Roomy self.old (queue_items c (pairs_of q.now)) }
        ensures { Lists self.old (queue_items c (pairs_of q.now)) self.new }
    {
        for &p in q.pairs() {
            self.pair(c, p);
        }
    }
}

// Puts the line of a table with the owner or the writer of each lock.
pub(crate) fn put_owners(out: &mut [u8], at: usize, name: &[u8], owners: &[u8]) -> usize
    requires { Room out.old at (table_text name.now (owners_items owners.now)) }
    ensures { Put out.old at (table_text name.now (owners_items owners.now)) out.new result }
{
    let mut line = Line::begin(out, at, name);
    for (l, &o) in owners.iter().enumerate() {
        line.owner(o, l);
    }
    line.close()
}

// Puts the line of the reader counts, lock by lock.
pub(crate) fn put_readers(
    out: &mut [u8],
    at: usize,
    name: &[u8],
    counts: &[u8; Waits::COUNTS],
) -> usize
    requires { Room out.old at (table_text name.now (readers_items counts.now)) }
    ensures { Put out.old at (table_text name.now (readers_items counts.now)) out.new result }
{
    let mut line = Line::begin(out, at, name);
    for l in 0..LOCKS {
        line.readers_of(counts, l);
    }
    line.close()
}

// Puts the line of the queues of all condvars.
pub(crate) fn put_queues(
    out: &mut [u8],
    at: usize,
    name: &[u8],
    queues: &[Queue; Detector::CONDVARS],
) -> usize
    requires { Queues queues.now × Room out.old at (table_text name.now (queues_items (map pairs_of queues.now))) }
    ensures { Put out.old at (table_text name.now (queues_items (map pairs_of queues.now))) out.new result }
{
    let mut line = Line::begin(out, at, name);
    for (c, q) in queues.iter().enumerate() {
        line.queue(c, q);
    }
    line.close()
}

// Puts the line of the cv waits of all threads.
pub(crate) fn put_cv_waits(
    out: &mut [u8],
    at: usize,
    name: &[u8],
    waits: &[CvWait; THREADS],
) -> usize
    requires { Room out.old at (table_text name.now (cv_waits_items waits.now)) }
    ensures { Put out.old at (table_text name.now (cv_waits_items waits.now)) out.new result }
{
    let mut line = Line::begin(out, at, name);
    for (t, &v) in waits.iter().enumerate() {
        line.cv_wait(t, v);
    }
    line.close()
}

// Puts the line of the intents of all threads.
pub(crate) fn put_intents(
    out: &mut [u8],
    at: usize,
    name: &[u8],
    intents: &[Option<WaitIntent>; THREADS],
) -> usize
    requires { Room out.old at (table_text name.now (intents_items intents.now)) }
    ensures { Put out.old at (table_text name.now (intents_items intents.now)) out.new result }
{
    let mut line = Line::begin(out, at, name);
    for (t, &i) in intents.iter().enumerate() {
        line.intent(t, i);
    }
    line.close()
}
