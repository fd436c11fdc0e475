// The test whether two tables of rows mirror each other.
ghost use Rattle.std.specs.Prelude.{◌≡◌, ◌<◌};
ghost use Rattle.sets.specs.Limits.{THREADS};
ghost use Rattle.sets.specs.Below.{every};
ghost use Rattle.graph.specs.Graph.{mirror_at, mirror_test};

use sets::{Set, THREADS};

// Returns true if, for every thread b, b is in `row` exactly when a is in row b of the incoming edges.
fn row_mirrors(row: u32, incoming: &[u32; THREADS], a: usize) -> bool
    requires { a < THREADS }
    ensures { result ≡ every (mirror_at row incoming.now a) THREADS }
{
    (0..THREADS).all(|b| row.has(b) == incoming[b].has(a))
}

// Returns true if every edge stands in both tables or in neither: b is in row a of the edges exactly when a is in row b
// of the incoming edges.
pub fn mirrors(edges: &[u32; THREADS], incoming: &[u32; THREADS]) -> bool
    ensures { result ≡ mirror_test edges.now incoming.now }
{
    (0..THREADS).all(|a| row_mirrors(edges[a], incoming, a))
}
