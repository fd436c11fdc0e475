// This crate reads a line of a script as an event, and prints an event as a line.
#![tactic(auto)]

mod line;
mod outcome;
mod print;

pub use line::read_line;
pub use print::{EVENT_BYTES, put_event};
