// This module puts the answer to a line of the script, and the `end` line.
ghost use Rattle.text.specs.Promises.{Room, Put};
ghost use Rattle.detector.specs.Numbered.{reports_of};
ghost use Rattle.answers.specs.Answers.{reply_text, answer_text, end_text};
ghost use Rattle.answers.specs.Promises.{ReportsInside};

use crate::cycle::put_cycles;
use detector::{Detector, Queue};
use text::{put_byte, put_bytes, put_field, put_number};

// An item of a `cycle` line takes at most this many bytes with the tab before it.
const ITEM_BYTES: usize = 8;

// An answer takes at most this many bytes: a reply line of 45, and 32 `cycle` lines of 32 items each.
pub const ANSWER_BYTES: usize = 45 + Queue::PLACES * (6 + Detector::THREADS * ITEM_BYTES);

// The `end` line takes at most this many bytes.
pub const END_BYTES: usize = 67;

// Puts the reply line and returns the place after it. The line has its number, then `ok` and the number of
// reports or `no` and the refusal.
#[tactic(auto, using(crate::proofs::Bounds::reply_length))]
fn put_reply(out: &mut [u8], at: usize, line: usize, reply: Result<usize, u8>) -> usize
    requires { Room out.old at (reply_text line reply) }
    ensures { Put out.old at (reply_text line reply) out.new result }
{
    let a = put_number(out, at, line);
    match reply {
        Ok(n) => {
            let b = put_bytes(out, a, b"\tok");
            let c = put_field(out, b, n);
            put_byte(out, c, b'\n')
        }
        Err(refusal) => {
            let b = put_bytes(out, a, b"\tno");
            let c = put_field(out, b, usize::from(refusal));
            put_byte(out, c, b'\n')
        }
    }
}

// Puts the reply line and a `cycle` line for each report in the report buffer, and returns the place after
// them. A refusal comes as its number, whatever that is, and has no `cycle` lines.
pub fn put_answer(
    out: &mut [u8],
    at: usize,
    line: usize,
    reply: Result<usize, u8>,
    buf: &[u8],
) -> usize
    requires inside { ReportsInside (reports_of reply) buf.now }
    requires room { Room out.old at (answer_text line reply buf.now) }
    ensures { Put out.old at (answer_text line reply buf.now) out.new result }
{
    let a = put_reply(out, at, line, reply);
    let Ok(n) = reply else {
        return a;
    };
    put_cycles(out, a, buf, n)
}

// Puts the `end` line with the three totals and returns the place after it.
#[tactic(auto, using(crate::proofs::Bounds::end_length))]
pub fn put_end(out: &mut [u8], at: usize, lines: usize, edges: usize, stuck: usize) -> usize
    requires { Room out.old at (end_text lines edges stuck) }
    ensures { Put out.old at (end_text lines edges stuck) out.new result }
{
    let a = put_bytes(out, at, b"end");
    let b = put_field(out, a, lines);
    let c = put_field(out, b, edges);
    let d = put_field(out, c, stuck);
    put_byte(out, d, b'\n')
}
