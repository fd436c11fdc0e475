// Waiting: intents and outcomes, the tables that every event may change, and the rules of waiting on these tables.
#![tactic(auto)]

mod attempt;
mod counts;
mod deadlock_handling;
mod intent;
mod outcome;
mod tables;
mod wait;

pub use counts::{count_down, count_up, no_readers, place};
pub use intent::{WaitIntent, WaitMode, lock_of};
pub use outcome::{Outcome, Tried};
pub use tables::Waits;
