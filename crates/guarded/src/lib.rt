// The calls for anybody: each tests what the inner call of crate `transcript` asks. A call with what cannot be
// a run, a place or a buffer is refused, and then everything stays as it was.
#![tactic(auto)]

ghost use Rattle.std.specs.Prelude.{◌≡◌, true};
ghost use Rattle.transcript.specs.Promises.{IsRun, FeedAsks, EndAsks};
ghost use Rattle.guarded.specs.Promises.{run_test, feed_test, end_test, FeedsAny, EndsAny};

use answers::END_BYTES;
use detector::Detector;
use text::CARRY_BYTES;
use transcript::{LIMIT, Run, Turned};

// Returns true if the run, with this carry, can be one between two bytes of a text.
pub fn is_run(run: &Run, carry: &[u8]) -> bool
    ensures { (result ≡ run_test run.now carry.now) × (result ≡ true → IsRun run.now carry.now) }
{
    if LIMIT < run.lines {
        return false;
    }
    if CARRY_BYTES < run.have {
        return false;
    }
    carry.len() == CARRY_BYTES && run.detector.is_valid()
}

// Returns true if `feed_within` may be called so, with a chunk, an out buffer and a report buffer of these lengths.
fn may_feed(
    run: &Run,
    carry: &[u8],
    chunk: usize,
    from: usize,
    out: usize,
    at: usize,
    buf: usize,
) -> bool
    ensures { (result ≡ feed_test run.now carry.now chunk from out at buf) × (result ≡ true → FeedAsks run.now carry.now chunk from out at buf) }
{
    if chunk < from {
        return false;
    }
    if out < at {
        return false;
    }
    buf == Detector::BUFFER_BYTES && is_run(run, carry)
}

// Does what `feed_within` does and returns the turn, if the call may be taken. Otherwise returns None, and changes
// neither the run nor a buffer.
pub fn feed(
    run: &mut Run,
    carry: &mut [u8],
    chunk: &[u8],
    from: usize,
    out: &mut [u8],
    at: usize,
    buf: &mut [u8],
) -> Option<Turned>
    ensures { FeedsAny run.old carry.old chunk.now from out.old at buf.old run.new result carry.new out.new buf.new }
{
    if !may_feed(run, carry, chunk.len(), from, out.len(), at, buf.len()) {
        return None;
    }
    Some(run.feed_within(carry, chunk, from, out, at, buf))
}

// Returns true if `finish_within` may be called so, with an out buffer of this length.
fn may_end(run: &Run, carry: &[u8], out: usize, at: usize) -> bool
    ensures { (result ≡ end_test run.now carry.now out at) × (result ≡ true → EndAsks run.now carry.now out at) }
{
    if out < at {
        return false;
    }
    if out - at < END_BYTES {
        return false;
    }
    if run.have == 0 {
        return is_run(run, carry);
    }
    run.lines == LIMIT && is_run(run, carry)
}

// Does what `finish_within` does and returns the place after the totals, if the call may be taken. Otherwise returns
// None, and changes no buffer.
pub fn finish(run: &Run, carry: &[u8], out: &mut [u8], at: usize) -> Option<usize>
    ensures { EndsAny run.now carry.now out.old at result out.new }
{
    if may_end(run, carry, out.len(), at) {
        Some(run.finish_within(carry, out, at))
    } else {
        None
    }
}
