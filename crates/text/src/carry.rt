// What is carried of a line that comes in pieces.
ghost use Rattle.std.specs.Prelude.{◌≡◌, ◌++◌, ◌≤◌, length, take};
ghost use Rattle.text.specs.Lines.{carry_bytes};

// The most bytes carried of a line: one more than a line may have, so that a full carry shows a line that is too long.
pub const CARRY_BYTES: usize = 41;

// Puts the bytes of `part` after the `have` bytes carried already, as far as there is room, and returns how many bytes
// are carried then. Bytes that find no room are dropped.
pub fn keep(carry: &mut [u8], have: usize, part: &[u8]) -> usize
    requires { (length carry.old ≡ carry_bytes) × (have ≤ carry_bytes) }
    ensures { (result ≤ carry_bytes) × (take result carry.new ≡ take carry_bytes (take have carry.old ++ part.now)) }
{
    let n = (CARRY_BYTES - have).min(part.len());
    carry[have..have + n].copy_from_slice(&part[..n]);
    have + n
}
