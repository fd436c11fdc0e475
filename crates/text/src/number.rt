// Numbers of one to three digits, as a script has them.
ghost use Rattle.std.specs.Prelude.{◌≡◌};
ghost use Rattle.text.specs.Numbers.{number_of};

// Returns the number that the bytes spell, or None if they are not one to three digits, or start with 0 and go on.
#[tactic(auto, using(crate::proofs::Numbers::number_none, crate::proofs::Numbers::number_long, crate::proofs::Numbers::number_zero))]
pub fn read_number(s: &[u8]) -> Option<usize>
    ensures { result ≡ number_of s.now }
{
    if let [] | [b'0', _, ..] | [_, _, _, _, ..] = s {
        return None;
    }
    let mut v = 0;
    for b in s {
        if !b.is_ascii_digit() {
            return None;
        }
        v = v * 10 + usize::from(b - b'0');
    }
    Some(v)
}
