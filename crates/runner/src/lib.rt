// What the programs replay and tables have in common: they read scripts, print an answer for each line, after
// it all tables if they are asked for, and at a script's end the totals.
#![tactic(auto)]

mod arguments;
mod buffers;
mod chunks;
mod help;
mod part;
mod program;
mod scripts;

pub use help::run_program;
