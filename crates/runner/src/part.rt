// This module takes a part of a chunk: as many lines as the chunk has, or one line if tables are printed after
// its answer.
ghost use Rattle.std.specs.Prelude.{◌<◌, length};
ghost use Rattle.transcript.specs.Replay.{limit};
ghost use Rattle.transcript.specs.Promises.{IsRun};
ghost use Rattle.runner.specs.Promises.{Part, Puts};

use crate::buffers::Buffers;
use listing::put_tables;
use text::up_to;
use transcript::{Run, Turned};

// Returns where the part that starts at `from` ends: without tables at the chunk's end, with tables after the
// next line feed, or at the chunk's end if there is none.
fn part_end(tables: bool, chunk: &[u8], from: usize) -> usize
    requires { from < length chunk.now }
    ensures { Part tables chunk.now from result }
{
    if !tables {
        return chunk.len();
    }
    let end = up_to(chunk, b'\n', from);
    if end < chunk.len() {
        return end + 1;
    }
    end
}

// Puts the answers to the lines that end in the part, with tables if they are asked for, and carries what the
// part has of the next line. This is the only call of `feed_within` in a program, so the compiler builds it
// into the loop that reads.
pub(crate) fn put_part(
    tables: bool,
    run: &mut Run,
    buffers: &mut Buffers,
    chunk: &[u8],
    from: usize,
) -> Turned
    requires { IsRun run.old buffers.old.carry × (run.old.lines < limit) × (from < length chunk.now) }
    ensures { Puts tables run.old buffers.old.carry chunk.now from buffers.old.out run.new result buffers.new.carry buffers.new.out }
{
    let lines = run.lines;
    let end = part_end(tables, chunk, from);
    let mut t = run.feed_within(
        &mut buffers.carry,
        &chunk[..end],
        from,
        &mut buffers.out,
        0,
        &mut buffers.reports,
    );
    if tables && run.lines != lines {
        t.at = put_tables(&run.detector, &mut buffers.out, t.at);
    }
    t
}
