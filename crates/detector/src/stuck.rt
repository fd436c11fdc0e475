// Two totals of the end line: how many edges are stored, and how many threads are stuck.
ghost use Rattle.std.specs.Prelude.{◌≡◌, ◌<◌, length};
ghost use Rattle.sets.specs.Limits.{THREADS};
ghost use Rattle.sets.specs.Below.{those};
ghost use Rattle.waits.specs.Tables.{intent_of};
ghost use Rattle.waits.specs.Owners.{blocking};
ghost use Rattle.detector.specs.State.{tables, Valid};
ghost use Rattle.detector.specs.Promises.{stuck_of};
ghost use Rattle.detector.specs.Stuck.{mask_of, true_waits, stuck_in, stuck_count, edge_count};

use crate::refused::Refusal;
use crate::state::Detector;
use graph::find_path;
use sets::{Set, THREADS};

// Returns true if t is stuck: there is a path back to t from a thread for which it truly waits.
fn is_stuck(rows: &[u32; THREADS], t: usize) -> bool
    requires { t < THREADS }
    ensures { result ≡ stuck_in rows.now t }
{
    rows[t].upward().any(|u| find_path(rows, u, t).is_some())
}

// Returns how many threads are stuck.
fn count_stuck(rows: &[u32; THREADS]) -> usize
    ensures { result ≡ length (those (stuck_in rows.now) THREADS) }
{
    (0..THREADS).filter(|&t| is_stuck(rows, t)).count()
}

// Returns how many edges the rows have.
fn count_edges(rows: &[u32; THREADS]) -> usize
    ensures { result ≡ edge_count rows.now }
{
    rows.iter().map(|row| row.count_ones() as usize).sum()
}

impl Detector {
    // Returns the threads for which t truly waits.
    fn blocking_mask(&self, t: usize) -> u32
        requires { Valid self.now × (t < THREADS) }
        ensures { result ≡ mask_of (blocking self.now.rwlock_readers self.now.waits (intent_of self.now.waits t)) }
    {
        let Some(i) = self.waits.thread_waits_for[t] else {
            return 0;
        };
        let owners = self.waits.incompatible_owners(&self.rwlock_readers, i);
        match owners.last {
            Some(last) => owners.readers.with(last),
            None => owners.readers,
        }
    }

    // Returns for each thread the threads for which it truly waits.
    fn true_waits(&self) -> [u32; THREADS]
        requires { Valid self.now }
        ensures { result ≡ true_waits self.now.rwlock_readers self.now.waits }
    {
        let mut rows = [0; THREADS];
        for t in 0..THREADS {
            rows[t] = self.blocking_mask(t);
        }
        rows
    }

    // Returns how many threads are stuck in a state that is known to be valid.
    pub fn stuck_within(&self) -> usize
        requires { Valid self.now }
        ensures { result ≡ stuck_count (tables self.now) }
    {
        count_stuck(&self.true_waits())
    }

    // Returns how many threads are stuck, or refusal 2 if the state is not valid.
    pub fn stuck(&self) -> Result<usize, Refusal>
        ensures { result ≡ stuck_of self.now }
    {
        if !self.is_valid() {
            return Err(Refusal::State);
        }
        Ok(self.stuck_within())
    }

    // Returns how many edges are stored.
    pub fn edges_stored(&self) -> usize
        ensures { result ≡ edge_count self.now.waits.wait_for_graph.edges }
    {
        count_edges(&self.waits.wait_for_graph.edges)
    }
}
