// The walk over a set.
ghost use Rattle.std.specs.Iterator.{YieldsFirst, item_count};
ghost use Rattle.sets.specs.Sets.{upward};

use crate::set::Set;

// Goes over the numbers of a set, from the lowest up.
#[derive(Clone, Copy)]
pub struct Upward<S: Set> {
    pub left: S,
}

impl<S: Set> Iterator for Upward<S> {
    type Item = usize;

    ghost next_gives = { YieldsFirst (λ w. upward S.SIZE (S.mask w.left)) };

    ghost remaining = { item_count (λ w. upward S.SIZE (S.mask w.left)) };

    // Takes the lowest number out of what is left and returns it, or None if nothing is left.
    fn next(&mut self) -> Option<usize> {
        let mask = self.left.wide();
        if mask == 0 {
            return None;
        }
        self.left = S::narrow(mask & (mask - 1));
        Some(mask.trailing_zeros() as usize)
    }
}
