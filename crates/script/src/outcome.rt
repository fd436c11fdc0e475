// This module reads how an attempt came out: `took`, `-` for blocked, or a hint, which is the number of the thread
// that was seen to own the lock.
ghost use Rattle.std.specs.Prelude.{◌≡◌};
ghost use Rattle.script.specs.Outcomes.{outcome_of};

use text::read_number;
use waits::Outcome;

// Returns the outcome that a field spells, or None if it spells none.
#[tactic(auto, using(crate::proofs::Outcomes::hinted, crate::proofs::Outcomes::took, crate::proofs::Outcomes::blocked, crate::proofs::Outcomes::none))]
pub(crate) fn read_outcome(s: &[u8]) -> Option<Outcome>
    ensures { result ≡ outcome_of s.now }
{
    if let Some(h) = read_number(s) {
        return Some(Outcome::Hinted(h));
    }
    match s {
        b"took" => Some(Outcome::Took),
        b"-" => Some(Outcome::Blocked),
        _ => None,
    }
}
