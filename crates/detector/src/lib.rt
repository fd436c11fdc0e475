// The detector: its state, the 18 events, the refusals, and the step, which takes any state and any event.
#![tactic(auto)]

mod condvar;
mod event;
mod mutex;
mod refusal;
mod refused;
mod report;
mod rwlock;
mod state;
mod step;
mod stuck;
mod types;
mod valid;

pub use event::Event;
pub use refused::Refusal;
pub use state::{Condvars, CvWait, Detector, Pair, Queue};
pub use types::typed;
