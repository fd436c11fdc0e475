// This module runs a script over a chunk, line by line.
ghost use Rattle.std.specs.Prelude.{◌≡◌, ◌++◌, length, take};
ghost use Rattle.detector.specs.Refusals.{buffer_bytes};
ghost use Rattle.script.specs.Lines.{line_of};
ghost use Rattle.answers.specs.Answers.{printed};
ghost use Rattle.transcript.specs.Code.{with_detector};
ghost use Rattle.transcript.specs.Promises.{Begins, IsRun, Replied, FeedAsks, Feeds};

use crate::lines::line_of;
use answers::{ANSWER_BYTES, put_answer};
use detector::{Detector, Refusal};
use text::{keep, up_to};

// Lines after the one of this number are not read.
pub const LIMIT: usize = 1000000;

// Holds a script's run between two bytes of its text: the state, how many lines were read, and how many bytes
// are carried.
#[derive(Clone, Copy)]
pub struct Run {
    pub detector: Detector,
    pub lines: usize,
    pub have: usize,
}

// Holds what `feed_within` returns: the place in the chunk where the next part starts, and the place after what it put.
#[derive(Clone, Copy)]
pub struct Turned {
    pub next: usize,
    pub at: usize,
}

// Returns what is printed of a reply: the number of reports, or the number of the refusal.
fn printed(reply: Result<usize, Refusal>) -> Result<usize, u8>
    ensures { result ≡ printed reply }
{
    reply.map_err(u8::from)
}

impl Run {
    // Returns the run before the first byte: the empty state, no line read and nothing carried.
    pub fn begin() -> Run
        ensures { Begins result }
    {
        Run {
            detector: Detector::new(),
            lines: 0,
            have: 0,
        }
    }

    // Replies to the line that ends with this part of the chunk: refuses it if it does not read as an event, or takes a
    // step with its event.
    fn reply(&mut self, carry: &mut [u8], part: &[u8], buf: &mut [u8]) -> Result<usize, Refusal>
        requires { IsRun self.old carry.old }
        ensures same { self.new ≡ with_detector self.old self.new.detector }
        ensures reply { Replied self.old.detector (line_of (take self.old.have carry.old ++ part.now)) self.new.detector result buf.old buf.new }
    {
        let event = line_of(carry, self.have, part).ok_or(Refusal::Unreadable)?;
        self.detector.step_within(event, buf)
    }

    // Puts an answer for each line of the chunk from `from` on, and carries a line that is not whole at its end.
    // Stops early at the limit of lines, or if `out` lacks room for the longest answer.
    pub fn feed_within(
        &mut self,
        carry: &mut [u8],
        chunk: &[u8],
        from: usize,
        out: &mut [u8],
        at: usize,
        buf: &mut [u8],
    ) -> Turned
        requires { FeedAsks self.old carry.old (length chunk.now) from (length out.old) at (length buf.old) }
        ensures { Feeds self.old carry.old chunk.now from out.old at self.new result carry.new out.new }
    {
        let mut next = from;
        let mut to = at;
        while next < chunk.len() {
            if self.lines == LIMIT || out.len() - to < ANSWER_BYTES {
                break;
            }
            let end = up_to(chunk, b'\n', next);
            if end == chunk.len() {
                self.have = keep(carry, self.have, &chunk[next..end]);
                next = end;
                break;
            }
            let reply = self.reply(carry, &chunk[next..end], buf);
            self.lines += 1;
            self.have = 0;
            to = put_answer(out, to, self.lines, printed(reply), buf);
            next = end + 1;
        }
        Turned { next, at: to }
    }
}
