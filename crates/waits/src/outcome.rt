// How an attempt on a lock came out.

// The outcome of an attempt: the lock was taken, or the thread was blocked, perhaps with a hint, the thread that was
// seen to own the lock.
#[derive(Clone, Copy)]
pub enum Outcome {
    Took,
    Blocked,
    Hinted(usize),
}

// The outcome of a read that is only tried: taken or missed. There is never a hint.
#[derive(Clone, Copy)]
pub enum Tried {
    Taken,
    Missed,
}

impl From<Tried> for Outcome {
    ghost use Rattle.std.specs.Prelude.{◌≡◌};
    ghost use Rattle.waits.specs.Code.{as_outcome};

    ghost from_gives = { λ t o. o ≡ as_outcome t };

    // Returns the outcome that a read that is only tried stands for: a read that missed was blocked without a hint.
    fn from(tried: Tried) -> Outcome {
        match tried {
            Tried::Taken => Outcome::Took,
            Tried::Missed => Outcome::Blocked,
        }
    }
}
