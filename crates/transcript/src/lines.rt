// This module reads a line of which the beginning may have been carried.
ghost use Rattle.std.specs.Prelude.{◌≡◌, ◌++◌, ◌≤◌, length, take};
ghost use Rattle.script.specs.Lines.{line_of};
ghost use Rattle.text.specs.Lines.{carry_bytes};

use detector::Event;
use script::read_line;
use text::keep;

// Returns what the line reads as that has `have` bytes in the carry and ends with this part of the chunk. The
// part alone is read if nothing is carried; otherwise it is added to the carry, as far as there is room.
pub(crate) fn line_of(carry: &mut [u8], have: usize, part: &[u8]) -> Option<Event>
    requires { (length carry.old ≡ carry_bytes) × (have ≤ carry_bytes) }
    ensures { result ≡ line_of (take have carry.old ++ part.now) }
{
    if have == 0 {
        return read_line(part);
    }
    let h = keep(carry, have, part);
    read_line(&carry[..h])
}
