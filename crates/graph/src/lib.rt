// The wait-for graph: who waits for whom, the search for a path, and the test whether two tables mirror each other.
#![tactic(auto)]

mod mirror;
mod owners;
mod path;
mod search;
mod wait_for_graph;

pub use mirror::mirrors;
pub use owners::Owners;
pub use path::Path;
pub use search::find_path;
pub use wait_for_graph::WaitForGraph;
