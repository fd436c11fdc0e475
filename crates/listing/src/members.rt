// This module puts tables that are sets: a single set, or a set in each cell. Numbers go upward.
ghost use Rattle.std.specs.Prelude.{map, ◌≤◌};
ghost use Rattle.text.specs.Promises.{Room, Put};
ghost use Rattle.listing.specs.Listing.{table_text, members_of, set_items, sets_items};
ghost use Rattle.listing.specs.Promises.{Roomy, Lists};

use crate::line::Line;
use sets::Set;

// Puts the line of a table that is one set, with its numbers as items, and returns the place after it.
pub(crate) fn put_members(out: &mut [u8], at: usize, name: &[u8], m: u32) -> usize
    requires { Room out.old at (table_text name.now (members_of m)) }
    ensures { Put out.old at (table_text name.now (members_of m)) out.new result }
{
    let mut line = Line::begin(out, at, name);
    for j in m.wide().upward() {
        line.one(j);
    }
    line.close()
}

impl<'a> Line<'a> {
    // Puts an item for each number of the set m in cell i: i, the sign and the number.
    fn set(&mut self, sign: u8, i: usize, m: u64)
        requires { (self.old.start ≤ self.old.at) × Roomy self.old (set_items sign i m) }
        ensures { Lists self.old (set_items sign i m) self.new }
    {
        for j in m.upward() {
            self.two(i, sign, j);
        }
    }
}

// Puts the line of a table with a set in each cell, and returns the place after it.
pub(crate) fn put_sets<S: Set>(
    out: &mut [u8],
    at: usize,
    name: &[u8],
    sign: u8,
    rows: &[S],
) -> usize
    requires { Room out.old at (table_text name.now (sets_items sign (map S.mask rows.now))) }
    ensures { Put out.old at (table_text name.now (sets_items sign (map S.mask rows.now))) out.new result }
{
    let mut line = Line::begin(out, at, name);
    for (i, m) in rows.iter().enumerate() {
        line.set(sign, i, m.wide());
    }
    line.close()
}
