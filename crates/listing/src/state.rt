// This module puts all tables of a state, in the order of their names. Each function returns the place after
// the lines that it puts.
ghost use Rattle.std.specs.Prelude.{map, ◌+◌, ◌≤◌, length};
ghost use Rattle.text.specs.Promises.{Room, Put};
ghost use Rattle.detector.specs.State.{tables, pairs_of, Valid};
ghost use Rattle.listing.specs.Listing.{condvars_text, graph_text, mutexes_text, rwlocks_text, threads_text, tables_text};
ghost use Rattle.listing.specs.Promises.{Queues};
ghost use Rattle.listing.specs.Code.{tables_bytes};

use crate::members::{put_members, put_sets};
use crate::rows::{put_cv_waits, put_intents, put_owners, put_queues, put_readers};
use detector::{CvWait, Detector, Queue, typed};
use sets::THREADS;
use waits::Waits;

// The lines of all tables take at most this many bytes in any valid state.
pub const TABLES_BYTES: usize = 120000;

// Puts the lines of `cv_waiters` and `cv_woken`.
fn put_condvars(
    out: &mut [u8],
    at: usize,
    queues: &[Queue; Detector::CONDVARS],
    woken: u32,
) -> usize
    requires { Queues queues.now × Room out.old at (condvars_text (map pairs_of queues.now) woken) }
    ensures { Put out.old at (condvars_text (map pairs_of queues.now) woken) out.new result }
{
    let a = put_queues(out, at, b"cv_waiters", queues);
    put_members(out, a, b"cv_woken", woken)
}

// Puts the lines of `edges` and `incoming_edges`.
fn put_graph(out: &mut [u8], at: usize, w: &Waits) -> usize
    requires { Room out.old at (graph_text w.now) }
    ensures { Put out.old at (graph_text w.now) out.new result }
{
    let g = &w.wait_for_graph;
    let a = put_sets(out, at, b"edges", b'>', &g.edges);
    put_sets(out, a, b"incoming_edges", b'<', &g.incoming_edges)
}

// Puts the lines of `lock_waiters` and `mutex_owners`.
fn put_mutexes(out: &mut [u8], at: usize, w: &Waits) -> usize
    requires { Room out.old at (mutexes_text w.now) }
    ensures { Put out.old at (mutexes_text w.now) out.new result }
{
    let a = put_sets(out, at, b"lock_waiters", b':', &w.lock_waiters);
    put_owners(out, a, b"mutex_owners", &w.mutex_owners)
}

// Puts the lines of `rwlock_readers` and `rwlock_writer`.
fn put_rwlocks(out: &mut [u8], at: usize, w: &Waits, counts: &[u8; Waits::COUNTS]) -> usize
    requires { Room out.old at (rwlocks_text w.now counts.now) }
    ensures { Put out.old at (rwlocks_text w.now counts.now) out.new result }
{
    let a = put_readers(out, at, b"rwlock_readers", counts);
    put_owners(out, a, b"rwlock_writer", &w.rwlock_writer)
}

// Puts the lines of `thread_holds`, `thread_wait_cv` and `thread_waits_for`.
fn put_threads(out: &mut [u8], at: usize, w: &Waits, waits: &[CvWait; THREADS]) -> usize
    requires { Room out.old at (threads_text w.now waits.now) }
    ensures { Put out.old at (threads_text w.now waits.now) out.new result }
{
    let a = put_sets(out, at, b"thread_holds", b':', &w.thread_holds);
    let b = put_cv_waits(out, a, b"thread_wait_cv", waits);
    put_intents(out, b, b"thread_waits_for", &w.thread_waits_for)
}

// Puts the lines of all tables into a buffer with room for those of this state.
fn put_all(d: &Detector, out: &mut [u8], at: usize) -> usize
    requires { Valid d.now × Room out.old at (tables_text (tables d.now)) }
    ensures { Put out.old at (tables_text (tables d.now)) out.new result }
{
    let a = put_condvars(out, at, &d.condvars.cv_waiters, d.cv_woken);
    let b = put_graph(out, a, &d.waits);
    let c = put_mutexes(out, b, &d.waits);
    let e = put_rwlocks(out, c, &d.waits, &d.rwlock_readers);
    put_threads(out, e, &d.waits, &d.condvars.thread_wait_cv)
}

// Puts a line for each table that is not empty into a buffer with room for those of any state.
pub fn put_tables(d: &Detector, out: &mut [u8], at: usize) -> usize
    requires { Valid d.now × (at + tables_bytes ≤ length out.old) }
    ensures { Put out.old at (tables_text (tables d.now)) out.new result × (result ≤ at + tables_bytes) }
{
    typed(*d);
    put_all(d, out, at)
}
