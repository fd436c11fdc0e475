// This crate puts the tables of a state, as the program `tables` prints them, into a buffer that the caller lends.
#![tactic(auto)]

mod cell;
mod line;
mod members;
mod rows;
mod state;

pub use state::{TABLES_BYTES, put_tables};
