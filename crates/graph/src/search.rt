// The search for a path goes breadth first and takes the neighbours of a thread from the lowest number up. A thread
// that is met again keeps the parent it was first found from.
ghost use Rattle.std.specs.Prelude.{◌≡◌, [], ◌<◌, ◌≤◌, length, slice_get, IfSome};
ghost use Rattle.sets.specs.Limits.{THREADS};
ghost use Rattle.graph.specs.Search.{visit, expand, way_back, begun, find_path};

use crate::path::Path;
use sets::{Set, THREADS};
use std::marker::Model;

// A thread that was found, and the place of its parent, the thread it was found from.
#[derive(Clone, Copy)]
pub struct Found {
    pub thread: u8,
    pub parent: u8,
}

// Holds the threads found in the order in which they were found, which is also the queue of threads to expand, and all
// of them as a set. A contract sees a search as its trail.
#[derive(Drop)]
pub struct Search {
    found: [Found; THREADS],
    count: usize,
    seen: u32,
}

impl Model for Search {
    ghost use Rattle.std.specs.Prelude.{◌≡◌, ◌≤◌, length, take};
    ghost use Rattle.sets.specs.Limits.{THREADS};
    ghost use Rattle.graph.specs.Search.{Trail};
    ghost use Rattle.graph.specs.Code.{trail_of};
    ghost use Rattle.graph.specs.Promises.{Sound};

    ghost Value = { Trail };

    ghost view = { λ s. trail_of (take s.count s.found) s.seen };

    ghost invariant = { λ s. (s.count ≤ THREADS) × (length s.found ≡ THREADS) × Sound (trail_of (take s.count s.found) s.seen) };
}

impl Search {
    // Returns a search that has found the start alone.
    fn begin(start: usize) -> Search
        requires { start < THREADS }
        ensures { result ≡ begun start }
    {
        let first = Found {
            thread: start as u8,
            parent: 0,
        };
        Search {
            found: [first; THREADS],
            count: 1,
            seen: 0u32.with(start),
        }
    }

    // Adds the thread n, met among the neighbours of the thread at the place p, unless it was found before.
    fn visit(&mut self, n: usize, p: usize)
        requires { (n < THREADS) × (p < length self.old.threads) }
        ensures { self.new ≡ visit p self.old n }
    {
        if !self.seen.has(n) {
            self.found[self.count] = Found {
                thread: n as u8,
                parent: p as u8,
            };
            self.count += 1;
            self.seen = self.seen.with(n);
        }
    }

    // Visits all neighbours m of the thread at the place p, upward.
    fn expand(&mut self, m: u32, p: usize)
        requires { p < length self.old.threads }
        ensures { self.new ≡ expand p self.old m }
    {
        for n in m.upward() {
            self.visit(n, p);
        }
    }

    // Returns the thread at a place, or None if that many threads were not found.
    fn thread(&self, place: usize) -> Option<usize>
        ensures { (result ≡ slice_get self.now.threads place) × IfSome result (λ t. (t < THREADS) × (place < length self.now.threads)) }
    {
        let found = self.found[..self.count].get(place)?;
        Some(usize::from(found.thread))
    }

    // Returns the path from the start to the thread at a place. The parents give its end first.
    fn path_to(&self, place: usize) -> Path
        requires { place < length self.now.threads }
        ensures { result ≡ way_back 31 self.now place [] }
    {
        let mut path = Path::new();
        let mut k = place;
        while k != 0 {
            path.push(self.found[k].thread);
            k = usize::from(self.found[k].parent);
        }
        path.push(self.found[0].thread);
        path.reverse();
        path
    }
}

// Returns a path from start to target along the edges of 32 rows, or None if there is none. If start is target, the
// path is that thread alone.
pub fn find_path(edges: &[u32; THREADS], start: usize, target: usize) -> Option<Path>
    requires { start < THREADS }
    ensures { result ≡ find_path edges.now start target }
{
    // Most threads that own a lock wait for nobody, so most calls end here without a search.
    if edges[start] == 0 && start != target {
        return None;
    }
    let mut search = Search::begin(start);
    for p in 0..THREADS {
        let current = search.thread(p)?;
        if current == target {
            return Some(search.path_to(p));
        }
        search.expand(edges[current], p);
    }
    None
}
