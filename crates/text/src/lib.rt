// Text as bytes. For reading there are fields, numbers, and the first bytes of a line that comes in pieces. For
// printing there are bytes and numbers, put into a buffer that the caller lends. Reading uses nothing of printing.
#![tactic(auto)]

mod carry;
mod decimal;
mod fields;
mod number;
mod put;

pub use carry::{CARRY_BYTES, keep};
pub use decimal::{put_field, put_number};
pub use fields::{field, up_to};
pub use number::read_number;
pub use put::{put_byte, put_bytes};
