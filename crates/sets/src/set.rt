// What a set can do, whatever its width. A set of threads is a u32, and a set of locks is a u64.
ghost use Rattle.std.specs.Prelude.{◌≡◌, ℕ, ◌^◌, ◌<◌, ◌≤◌};
ghost use Rattle.sets.specs.Limits.{THREADS, LOCKS};
ghost use Rattle.sets.specs.Sets.{has, with, without};
ghost use lib.Dec.{lit≤};

use crate::upward::Upward;

// A set of the numbers below SIZE.
pub trait Set: Copy {
    // How many numbers can be in a set.
    ghost SIZE: { ℕ };

    // The mask of a set: the number i is in the set when digit i of the mask is 1.
    ghost mask: { Self → ℕ };

    // Returns the mask in 64 digits.
    fn wide(self) -> u64
        ensures { (result ≡ mask self) × (result < 2 ^ SIZE) };

    // Returns the set with this mask.
    fn narrow(m: u64) -> Self
        requires { m < 2 ^ SIZE }
        ensures { mask result ≡ m };

    // Returns true if the number i is in the set.
    final fn has(self, i: usize) -> bool
        requires { i < SIZE }
        ensures { result ≡ has (mask self) i }
    {
        (self.wide() >> i) % 2 == 1
    }

    // Returns the set with the number i added.
    final fn with(self, i: usize) -> Self
        requires { i < SIZE }
        ensures { mask result ≡ with (mask self) i }
    {
        Self::narrow(self.wide() | (1 << i))
    }

    // Returns the set with the number i taken out.
    final fn without(self, i: usize) -> Self
        requires { i < SIZE }
        ensures { mask result ≡ without (mask self) i }
    {
        Self::narrow(self.wide() & !(1 << i))
    }

    // Returns the numbers of the set one by one, from the lowest up.
    final fn upward(self) -> Upward<Self>
        ensures { result.left ≡ self }
    {
        Upward { left: self }
    }

    // A mask has at most 64 digits.
    ghost fits: { SIZE ≤ 64 };
}

impl Set for u32 {
    ghost SIZE = { THREADS };

    ghost mask = { λ m. m };

    fn wide(self) -> u64 {
        u64::from(self)
    }

    fn narrow(m: u64) -> u32 {
        m as u32
    }

    ghost fits = { lit≤ tt };
}

impl Set for u64 {
    ghost SIZE = { LOCKS };

    ghost mask = { λ m. m };

    fn wide(self) -> u64 {
        self
    }

    fn narrow(m: u64) -> u64 {
        m
    }

    ghost fits = { lit≤ tt };
}
