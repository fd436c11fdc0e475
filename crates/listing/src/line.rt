// This module puts the line of a table item by item. The line's beginning is put with the first item, so that a
// table without items has no line.
ghost use Rattle.std.specs.Prelude.{◌≡◌, [], ◌∷◌, eqb};
ghost use Rattle.text.specs.Decimal.{decimal};
ghost use Rattle.text.specs.Promises.{Put};
ghost use Rattle.listing.specs.Listing.{two, three};
ghost use Rattle.listing.specs.Code.{opening, ending};
ghost use Rattle.listing.specs.Promises.{Begun, Fits, Grows, Roomy, Lists};

use text::{put_byte, put_bytes, put_number};

// The line of a table that is being put: the buffer, where the line begins, the place after what has been put, and
// the table's name.
#[derive(Drop)]
pub(crate) struct Line<'a> {
    out: &'a mut [u8],
    start: usize,
    at: usize,
    name: &'a [u8],
}

impl<'a> Line<'a> {
    // Returns the line of the table `name` that begins at `at`, with nothing put.
    pub(crate) fn begin(out: &'a mut [u8], at: usize, name: &'a [u8]) -> Line<'a>
        ensures same_reference { result.out.ghost_name ≡ out.entry.ghost_name }
        ensures begun { Begun out.old at name.now result }
    {
        Line {
            out,
            start: at,
            at,
            name,
        }
    }

    // Puts a byte.
    fn byte(&mut self, b: u8)
        requires { Fits self.old (b ∷ []) }
        ensures { Grows self.old (b ∷ []) self.new }
    {
        self.at = put_byte(self.out, self.at, b);
    }

    // Puts a text.
    fn bytes(&mut self, s: &[u8])
        requires { Fits self.old s.now }
        ensures { Grows self.old s.now self.new }
    {
        self.at = put_bytes(self.out, self.at, s);
    }

    // Puts a number.
    fn number(&mut self, n: usize)
        requires { Fits self.old (decimal n) }
        ensures { Grows self.old (decimal n) self.new }
    {
        self.at = put_number(self.out, self.at, n);
    }

    // Puts what stands before an item. That is a tab, and before it `table` and the name if nothing of the line
    // has been put yet.
    fn open(&mut self)
        requires { Fits self.old (opening (eqb self.old.at self.old.start) self.old.name.now) }
        ensures { Grows self.old (opening (eqb self.old.at self.old.start) self.old.name.now) self.new }
    {
        if self.at == self.start {
            let name = self.name;
            self.bytes(b"table\t");
            self.bytes(name);
            return self.byte(b'\t');
        }
        self.byte(b'\t');
    }

    // Puts a number as an item.
    pub(crate) fn one(&mut self, a: usize)
        requires { Roomy self.old (decimal a ∷ []) }
        ensures { Lists self.old (decimal a ∷ []) self.new }
    {
        self.open();
        self.number(a);
    }

    // Puts two numbers with a sign between them as an item.
    pub(crate) fn two(&mut self, a: usize, sign: u8, b: usize)
        requires { Roomy self.old (two a sign b ∷ []) }
        ensures { Lists self.old (two a sign b ∷ []) self.new }
    {
        self.open();
        self.number(a);
        self.byte(sign);
        self.number(b);
    }

    // Puts three numbers with colons between them as an item.
    pub(crate) fn three(&mut self, a: usize, b: usize, c: usize)
        requires { Roomy self.old (three a (decimal b) c ∷ []) }
        ensures { Lists self.old (three a (decimal b) c ∷ []) self.new }
    {
        self.open();
        self.number(a);
        self.byte(b':');
        self.number(b);
        self.byte(b':');
        self.number(c);
    }

    // Puts a number, a text and a number with colons between them as an item.
    pub(crate) fn word(&mut self, a: usize, word: &[u8], c: usize)
        requires { Roomy self.old (three a word.now c ∷ []) }
        ensures { Lists self.old (three a word.now c ∷ []) self.new }
    {
        self.open();
        self.number(a);
        self.byte(b':');
        self.bytes(word);
        self.byte(b':');
        self.number(c);
    }

    // Puts the line feed, if something of the line has been put, and returns the place after the line.
    pub(crate) fn close(self) -> usize
        requires { Fits self (ending (eqb self.at self.start)) }
        ensures { Put self.entry.out.now self.entry.at (ending (eqb self.entry.at self.entry.start)) self.exit.0.now result }
    {
        let Line {
            out,
            start,
            at,
            name: _,
        } = self;
        if at == start {
            return at;
        }
        put_byte(out, at, b'\n')
    }
}
