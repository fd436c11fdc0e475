// This module ends a script's run with the totals.
ghost use Rattle.std.specs.Prelude.{◌+◌, ◌≤◌, length};
ghost use Rattle.text.specs.Promises.{Put};
ghost use Rattle.answers.specs.Answers.{end_bytes};
ghost use Rattle.transcript.specs.Chunks.{ends};
ghost use Rattle.transcript.specs.Promises.{EndAsks};
ghost use Rattle.transcript.specs.Code.{mid_of};

use crate::run::Run;
use answers::put_end;

impl Run {
    // Puts the totals, which are the lines read, the edges stored and the stuck threads of the state, and returns the
    // place after them. No line may be left to answer: nothing is carried, or the limit of lines is reached. A last line
    // that lacks its line feed must first be fed one (`open_line`).
    pub fn finish_within(&self, carry: &[u8], out: &mut [u8], at: usize) -> usize
        requires { EndAsks self.now carry.now (length out.old) at }
        ensures { Put out.old at (ends (mid_of self.now carry.now)) out.new result × (result ≤ at + end_bytes) }
    {
        let edges = self.detector.edges_stored();
        let stuck = self.detector.stuck_within();
        put_end(out, at, self.lines, edges, stuck)
    }
}
