// Sets of small numbers as masks: the number i is in a set when digit i of its mask is 1.
#![tactic(auto)]

mod set;
mod upward;

pub use set::Set;
pub use upward::Upward;

// The threads are numbered from 0 to 31.
pub const THREADS: usize = 32;

// The locks are numbered from 0 to 63.
pub const LOCKS: usize = 64;

// Stands for no thread wherever a table names one thread.
pub const NOBODY: usize = THREADS;
