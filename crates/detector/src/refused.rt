// The refusals, by their numbers.

// Why a line or an event is refused: the line cannot be read, the state is not valid, a number is out of range, the
// buffer is too small, a queue is full, or a reader count is at its limit.
#[derive(Clone, Copy, PartialEq, Eq, Debug)]
pub enum Refusal {
    Unreadable = 1,
    State = 2,
    Thread = 3,
    Lock = 4,
    Condvar = 5,
    Buffer = 6,
    Queue = 7,
    Count = 8,
}

impl From<Refusal> for u8 {
    ghost use Rattle.std.specs.Prelude.{◌≡◌};
    ghost use Rattle.detector.specs.Numbered.{number};

    ghost from_gives = { λ r n. n ≡ number r };

    // Returns the number of the refusal.
    fn from(refusal: Refusal) -> u8 {
        refusal as u8
    }
}
