// A path of threads.
ghost use Rattle.std.specs.Prelude.{◌≡◌, ◌<◌, [], ◌∷◌, ◌++◌, length, reverse};
ghost use Rattle.sets.specs.Limits.{THREADS};
ghost use Rattle.graph.specs.Promises.{Fit, Small};

use sets::THREADS;
use std::marker::Model;

// Holds the threads of a path in order, at most 32, and 0 at the places after them. A contract sees a path as the list of
// its threads, which gives the places back, so a path can be copied.
#[derive(Clone, Copy)]
pub struct Path {
    places: [u8; THREADS],
    len: usize,
}

impl Model for Path {
    ghost use Rattle.std.specs.Prelude.{◌≡◌, ◌≤◌, List, ℕ, length, take};
    ghost use Rattle.sets.specs.Limits.{THREADS};
    ghost use Rattle.graph.specs.Promises.{Small};
    ghost use Rattle.graph.specs.Code.{places_of};
    ghost use Rattle.std.proofs.Common.{arith, length-take-le};

    ghost Value = { List ℕ };

    ghost view = { λ p. take p.len p.places };

    ghost invariant = { λ p. (p.len ≤ THREADS) × (length p.places ≡ THREADS) × (places_of (take p.len p.places) ≡ p.places) × Small (take p.len p.places) };

    ghost inverse = { λ ts. record { places = places_of ts; len = length ts } };

    ghost inverse_ok = { λ p h i. record { places = h.2 i; len = length-take-le p.len p.places (omega (arith, h.0, h.1)) i } };
}

impl Path {
    // Returns the path without threads.
    pub(crate) fn new() -> Path
        ensures { result ≡ [] }
    {
        Path {
            places: [0; THREADS],
            len: 0,
        }
    }

    // Puts a thread at the end of the path.
    pub(crate) fn push(&mut self, thread: u8)
        requires { (length self.old < THREADS) × (thread < THREADS) }
        ensures { self.new ≡ self.old ++ thread ∷ [] }
    {
        self.places[self.len] = thread;
        self.len += 1;
    }

    // Turns the path round.
    pub(crate) fn reverse(&mut self)
        ensures { self.new ≡ reverse self.old }
    {
        self.places[..self.len].reverse();
    }

    // Returns the threads of the path in order.
    pub fn threads(&self) -> &[u8]
        ensures { (result.now ≡ self.now) × Fit self.now }
    {
        &self.places[..self.len]
    }
}
