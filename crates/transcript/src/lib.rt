// This crate turns a script that comes in chunks into what replay prints for it. The first bytes of a line that
// is not whole yet are carried from one chunk to the next.
#![tactic(auto)]

mod ending;
mod lines;
mod run;

pub use run::{LIMIT, Run, Turned};
