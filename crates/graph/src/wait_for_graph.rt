// The wait-for graph: for each thread the threads it waits for, and the threads that wait for it.
ghost use Rattle.std.specs.Prelude.{◌≡◌, ◌++◌, ◌<◌, ◌≤◌, IfSome, option_to_list};
ghost use Rattle.sets.specs.Limits.{THREADS};
ghost use Rattle.sets.specs.Sets.{upward};
ghost use Rattle.graph.specs.Graph.{empty, adding, cut_all, stored, add_edge, remove_edge, clear_wait_edges, remove_thread, add_owners, remove_edges_to};

use crate::owners::Owners;
use crate::path::Path;
use crate::search::find_path;
use sets::{Set, THREADS};

// An edge from a to b means that a waits for b. It stands in both tables: b is in row a of `edges`, and a is in row b
// of `incoming_edges`.
#[derive(Clone, Copy)]
pub struct WaitForGraph {
    pub edges: [u32; THREADS],
    pub incoming_edges: [u32; THREADS],
}

// Takes t out of row i of the table for every i in the set m.
fn cut_all(table: &mut [u32; THREADS], m: u32, t: usize)
    requires { t < THREADS }
    ensures { table.new ≡ cut_all t table.old m }
{
    for i in m.upward() {
        table[i] = table[i].without(t);
    }
}

impl WaitForGraph {
    // Returns the graph without edges.
    pub fn new() -> WaitForGraph
        ensures { result ≡ empty }
    {
        WaitForGraph {
            edges: [0; THREADS],
            incoming_edges: [0; THREADS],
        }
    }

    // Stores the edge in both tables.
    fn store(&mut self, from: usize, to: usize)
        requires { (from < THREADS) × (to < THREADS) }
        ensures { self.new ≡ stored self.old from to }
    {
        self.edges[from] = self.edges[from].with(to);
        self.incoming_edges[to] = self.incoming_edges[to].with(from);
    }

    // Stores the edge, unless it is there already or there is a path from `to` to `from`, so that it would close a
    // cycle. Such a path is returned, and the graph stays as it is.
    fn add_edge(&mut self, from: usize, to: usize) -> Option<Path>
        requires { (from < THREADS) × (to < THREADS) }
        ensures { adding self.new result ≡ add_edge self.old from to }
    {
        if self.edges[from].has(to) {
            return None;
        }
        let found = find_path(&self.edges, to, from);
        if found.is_none() {
            self.store(from, to);
        }
        found
    }

    // Drops every edge from the thread.
    pub fn clear_wait_edges(&mut self, thread: usize)
        requires { thread < THREADS }
        ensures { self.new ≡ clear_wait_edges self.old thread }
    {
        cut_all(&mut self.incoming_edges, self.edges[thread], thread);
        self.edges[thread] = 0;
    }

    // Takes the edge out of both tables. Does nothing if `edges` does not have it.
    fn remove_edge(&mut self, from: usize, to: usize)
        requires { (from < THREADS) × (to < THREADS) }
        ensures { self.new ≡ remove_edge self.old from to }
    {
        if self.edges[from].has(to) {
            self.edges[from] = self.edges[from].without(to);
            self.incoming_edges[to] = self.incoming_edges[to].without(from);
        }
    }

    // Drops every edge from the thread, then every edge to it that `incoming_edges` shows. No event calls this.
    pub fn remove_thread(&mut self, thread: usize)
        requires { thread < THREADS }
        ensures { self.new ≡ remove_thread self.old thread }
    {
        self.clear_wait_edges(thread);
        cut_all(&mut self.edges, self.incoming_edges[thread], thread);
        self.incoming_edges[thread] = 0;
    }

    // Drops the edge from each of the waiters to the thread.
    pub fn remove_edges_to(&mut self, waiters: u32, thread: usize)
        requires { thread < THREADS }
        ensures { self.new ≡ remove_edges_to thread self.old (upward THREADS waiters) }
    {
        for waiter in waiters.upward() {
            self.remove_edge(waiter, thread);
        }
    }

    // Adds an edge from t to each of the owners, in order. A path does not stop the owners after it, and the first path
    // is kept.
    pub fn add_owners(&mut self, t: usize, owners: Owners) -> Option<Path>
        requires { (t < THREADS) × IfSome owners.last (λ o. o < THREADS) }
        ensures { adding self.new result ≡ add_owners t self.old (upward THREADS owners.readers ++ option_to_list owners.last) }
    {
        let mut found = None;
        for owner in owners.readers.upward() {
            found = found.or(self.add_edge(t, owner));
        }
        if let Some(last) = owners.last {
            found = found.or(self.add_edge(t, last));
        }
        found
    }

    // Drops every edge from t, then adds edges to the owners as `add_owners` does.
    pub fn relink(&mut self, t: usize, owners: Owners) -> Option<Path>
        requires { (t < THREADS) × IfSome owners.last (λ o. o < THREADS) }
        ensures { adding self.new result ≡ add_owners t (clear_wait_edges self.old t) (upward THREADS owners.readers ++ option_to_list owners.last) }
    {
        self.clear_wait_edges(t);
        self.add_owners(t, owners)
    }
}
