// The tables that every event may change.
ghost use Rattle.std.specs.Prelude.{◌≡◌};
ghost use Rattle.waits.specs.Tables.{empty};
ghost use Rattle.waits.specs.Code.{named};

use crate::intent::WaitIntent;
use graph::WaitForGraph;
use sets::{LOCKS, NOBODY, THREADS};

// Holds the graph, each thread's intent, each lock's waiters, each thread's holds, and each lock's owner and writer,
// which may be nobody.
#[derive(Clone, Copy)]
pub struct Waits {
    pub wait_for_graph: WaitForGraph,
    pub thread_waits_for: [Option<WaitIntent>; THREADS],
    pub lock_waiters: [u32; LOCKS],
    pub thread_holds: [u64; THREADS],
    pub mutex_owners: [u8; LOCKS],
    pub rwlock_writer: [u8; LOCKS],
}

// Returns the thread that a table of owners or writers names, or None for nobody.
pub(crate) fn owner(byte: u8) -> Option<usize>
    ensures { result ≡ named byte }
{
    let thread = usize::from(byte);
    (thread < THREADS).then_some(thread)
}

impl Waits {
    // Stands for nobody in the tables of owners and writers.
    pub const NOBODY: u8 = NOBODY as u8;
    // How many reader counts there are: one for each lock and thread.
    pub const COUNTS: usize = LOCKS * THREADS;
    // The bytes of an entry: the thread, and the lock it awaits.
    pub const ENTRY_BYTES: usize = 2;
    // The bytes of the longest report: the number of its entries, and 32 entries.
    pub const REPORT_BYTES: usize = 1 + THREADS * Waits::ENTRY_BYTES;

    // Returns the empty tables: no edges, no intents, no waiters, no holds, and nobody as owner or writer.
    pub fn new() -> Waits
        ensures { result ≡ empty }
    {
        Waits {
            wait_for_graph: WaitForGraph::new(),
            thread_waits_for: [None; THREADS],
            lock_waiters: [0; LOCKS],
            thread_holds: [0; THREADS],
            mutex_owners: [Waits::NOBODY; LOCKS],
            rwlock_writer: [Waits::NOBODY; LOCKS],
        }
    }
}
