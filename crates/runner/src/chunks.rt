// This module runs one script, chunk by chunk.
ghost use Rattle.std.specs.Prelude.{◌≡◌, ◌⊎◌, Bool, true, [], ◌∷◌, ◌<◌, Ok, OnOk, length, take};
ghost use Rattle.std.specs.Io.{ReadsAtMost};
ghost use Rattle.std.proofs.lemmas.List.Edits.{sets};
ghost use Rattle.text.specs.Bytes.{line_feed};
ghost use Rattle.transcript.specs.Replay.{limit};
ghost use Rattle.transcript.specs.Chunks.{fed};
ghost use Rattle.transcript.specs.Promises.{IsRun};
ghost use Rattle.transcript.specs.Code.{mid_of};
ghost use Rattle.runner.specs.Code.{ends_with};

use crate::buffers::Buffers;
use crate::part::put_part;
use std::io;
use std::io::{Read, Write};
use transcript::{LIMIT, Run};

// The loop that reads needs a bound, because no contract can state what is read. No script comes near this
// number of turns.
const TURNS: u64 = 18446744073709551615;

// Tells what stopped a script before its totals were written, and why.
#[derive(Drop)]
pub(crate) enum Stop {
    NotRead(io::Error),
    NotWritten(io::Error),
}

// Takes a chunk part by part, as far as lines are read, and writes what each part puts before it takes the
// next. Returns why something could not be written, if so, and then the rest is not taken.
fn take_chunk<W: Write>(
    output: &mut W,
    tables: bool,
    run: &mut Run,
    buffers: &mut Buffers,
    chunk: &[u8],
) -> io::Result<()>
    requires { IsRun run.old buffers.old.carry }
    ensures { IsRun run.new buffers.new.carry × OnOk result (mid_of run.new buffers.new.carry ≡ fed (mid_of run.old buffers.old.carry) chunk.now) }
{
    let mut i = 0;
    while i < chunk.len() && run.lines != LIMIT {
        let t = put_part(tables, run, buffers, chunk, i);
        i = t.next;
        output.write_all(&buffers.out[..t.at])?;
    }
    Ok(())
}

// Writes the totals, which are the same text with tables and without, or returns why they could not be written. No
// line may be left to answer.
fn end<W: Write>(output: &mut W, run: &Run, buffers: &mut Buffers) -> Result<(), Stop>
    requires { IsRun run.now buffers.old.carry × ((run.now.have ≡ 0) ⊎ (run.now.lines ≡ limit)) }
    ensures totals { (tables : Bool) → buffers.new.out ≡ sets buffers.old.out 0 (ends_with tables (mid_of run.now buffers.old.carry)) }
    ensures others { (buffers.new.carry ≡ buffers.old.carry) × (buffers.new.reports ≡ buffers.old.reports) }
{
    let to = run.finish_within(&buffers.carry, &mut buffers.out, 0);
    output
        .write_all(&buffers.out[..to])
        .map_err(Stop::NotWritten)
}

// Reads a chunk and returns the number of its bytes, or why reading failed. When the input is over, the chunk
// is the line feed that the last line lacks.
fn next_chunk<R: Read>(input: &mut R, over: bool, inp: &mut [u8]) -> io::Result<usize>
    requires { 0 < length inp.old }
    ensures last { over ≡ true → (result ≡ Ok 1) × (take 1 inp.new ≡ line_feed ∷ []) }
    ensures bound { ReadsAtMost result inp.new }
{
    if over {
        inp[0] = b'\n';
        return Ok(1);
    }
    input.read(inp)
}

// Runs the script that is read from `input`, from the empty state to the totals, or returns what stopped it.
pub(crate) fn run_script<R: Read, W: Write>(
    input: &mut R,
    output: &mut W,
    tables: bool,
    inp: &mut [u8],
    buffers: &mut Buffers,
) -> Result<(), Stop>
    requires { 0 < length inp.old }
{
    let mut run = Run::begin();
    let mut over = false;
    for _ in 0..TURNS {
        if run.lines == LIMIT || over && run.have == 0 {
            return end(output, &run, buffers);
        }
        let k = next_chunk(input, over, inp).map_err(Stop::NotRead)?;
        over = over || k == 0;
        take_chunk(output, tables, &mut run, buffers, &inp[..k]).map_err(Stop::NotWritten)?;
    }
    Err(Stop::NotRead(io::Error::other("too many reads")))
}
