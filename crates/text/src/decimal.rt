// Numbers printed in decimal.
ghost use Rattle.std.specs.Prelude.{◌≡◌, ◌+◌, ◌<◌};
ghost use Rattle.text.specs.Decimal.{digit, decimal, with_tab};
ghost use Rattle.text.specs.Promises.{Room, Put};

use crate::put::put_byte;

// Puts the digits of n into the buffer from the place `at` on, and returns the place after them. The last digit is put
// first.
pub fn put_number(out: &mut [u8], at: usize, n: usize) -> usize
    requires { Room out.old at (decimal n) }
    ensures { Put out.old at (decimal n) out.new result }
{
    if n < 10 {
        return put_byte(out, at, b'0' + n as u8);
    }
    let end = at + n.ilog10() as usize + 1;
    let mut rest = n;
    for i in (at..end).rev() {
        out[i] = b'0' + (rest % 10) as u8;
        rest = rest / 10;
    }
    end
}

// Puts a tab and the digits of n into the buffer from the place `at` on, and returns the place after them.
pub fn put_field(out: &mut [u8], at: usize, n: usize) -> usize
    requires { Room out.old at (with_tab (decimal n)) }
    ensures { Put out.old at (with_tab (decimal n)) out.new result }
{
    let a = put_byte(out, at, b'\t');
    put_number(out, a, n)
}
