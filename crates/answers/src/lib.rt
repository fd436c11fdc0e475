// This crate puts the lines that replay prints, byte by byte, into a buffer that the caller lends.
#![tactic(auto)]

mod answer;
mod cycle;

pub use answer::{ANSWER_BYTES, END_BYTES, put_answer, put_end};
