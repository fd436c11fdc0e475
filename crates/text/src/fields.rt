// The fields of a line. A field is returned as a slice of the line, not as a copy.
ghost use Rattle.std.specs.Prelude.{◌≡◌, ◌+◌, ◌≤◌, ◌==◌, length, drop, position};
ghost use Rattle.text.specs.Fields.{up_to, field_at};

// Returns how many bytes stand before the first byte d, or None if there is none.
fn first(text: &[u8], d: u8) -> Option<usize>
    ensures { result ≡ position (λ b. b == d) text.now }
{
    text.iter().position(|&b| b == d)
}

// Returns the place of the first byte d from the place a on, or the length of the text if there is none.
pub fn up_to(text: &[u8], d: u8, a: usize) -> usize
    requires { a ≤ length text.now }
    ensures { (result ≡ a + length (up_to d (drop a text.now))) × (result ≤ length text.now) }
{
    first(&text[a..], d).map_or(text.len(), |n| a + n)
}

// Returns the field that starts at the place a: the bytes up to the next tab, or to the end of the line.
pub fn field(line: &[u8], a: usize) -> &[u8]
    requires { a ≤ length line.now }
    ensures { result.now ≡ field_at line.now a }
{
    let e = up_to(line, b'\t', a);
    &line[a..e]
}
