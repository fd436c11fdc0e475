// Bytes put into a buffer.
ghost use Rattle.std.specs.Prelude.{[], ◌∷◌};
ghost use Rattle.text.specs.Promises.{Room, Put};

// Puts one byte at the place `at`, and returns the place after it.
pub fn put_byte(out: &mut [u8], at: usize, b: u8) -> usize
    requires { Room out.old at (b ∷ []) }
    ensures { Put out.old at (b ∷ []) out.new result }
{
    out[at] = b;
    at + 1
}

// Puts the bytes of s from the place `at` on, and returns the place after them.
pub fn put_bytes(out: &mut [u8], at: usize, s: &[u8]) -> usize
    requires { Room out.old at s.now }
    ensures { Put out.old at s.now out.new result }
{
    let end = at + s.len();
    out[at..end].copy_from_slice(s);
    end
}
