// This module puts a `cycle` line for each report in the report buffer.
ghost use Rattle.std.specs.Prelude.{◌≡◌, ◌+◌, ◌*◌, ◌≤◌, length, drop, get_or};
ghost use Rattle.text.specs.Decimal.{with_tab};
ghost use Rattle.text.specs.Promises.{Room, Put};
ghost use Rattle.waits.specs.Report.{entry_bytes};
ghost use Rattle.answers.specs.Reports.{entry_in, entries_in, report_in, reports_in};
ghost use Rattle.answers.specs.Answers.{item_text, items_text, cycle_text, cycles_text};
ghost use Rattle.answers.specs.Promises.{ReportsInside};

use text::{put_byte, put_bytes, put_field, put_number};
use waits::Waits;

// Puts a tab and the item `thread:lock` of the entry that starts at `from` in the report buffer, and returns
// the place after the item.
#[tactic(auto, using(crate::proofs::Bounds::item_length))]
fn put_item(out: &mut [u8], at: usize, buf: &[u8], from: usize) -> usize
    requires inside { from + entry_bytes ≤ length buf.now }
    requires room { Room out.old at (with_tab (item_text (entry_in (drop from buf.now)))) }
    ensures { Put out.old at (with_tab (item_text (entry_in (drop from buf.now)))) out.new result }
{
    let a = put_field(out, at, usize::from(buf[from]));
    let b = put_byte(out, a, b':');
    put_number(out, b, usize::from(buf[from + 1]))
}

// Puts the items of n entries, the first of which starts at `from`, and returns the place after them.
fn put_items(out: &mut [u8], at: usize, buf: &[u8], from: usize, n: usize) -> usize
    requires inside { from + entry_bytes * n ≤ length buf.now }
    requires room { Room out.old at (items_text (entries_in n (drop from buf.now))) }
    ensures { Put out.old at (items_text (entries_in n (drop from buf.now))) out.new result }
{
    let mut to = at;
    for i in 0..n {
        to = put_item(out, to, buf, from + Waits::ENTRY_BYTES * i);
    }
    to
}

// Puts the `cycle` line of the report of n entries that starts at `from`, and returns the place after it.
#[tactic(auto, using(crate::proofs::Bounds::cycle_at_length))]
fn put_cycle(out: &mut [u8], at: usize, buf: &[u8], from: usize, n: usize) -> usize
    requires inside { (n ≡ get_or buf.now from 0) × (from + 1 + entry_bytes * n ≤ length buf.now) }
    requires room { Room out.old at (cycle_text (report_in (drop from buf.now))) }
    ensures { Put out.old at (cycle_text (report_in (drop from buf.now))) out.new result }
{
    let a = put_bytes(out, at, b"cycle");
    let b = put_items(out, a, buf, from + 1, n);
    put_byte(out, b, b'\n')
}

// Puts a `cycle` line for each of the reports and returns the place after them. The first report starts at the
// buffer's first byte.
#[tactic(auto, using(crate::proofs::Items::size_turn))]
pub(crate) fn put_cycles(out: &mut [u8], at: usize, buf: &[u8], reports: usize) -> usize
    requires inside { ReportsInside reports buf.now }
    requires room { Room out.old at (cycles_text (reports_in reports buf.now)) }
    ensures { Put out.old at (cycles_text (reports_in reports buf.now)) out.new result }
{
    let mut to = at;
    let mut p = 0;
    for _ in 0..reports {
        let n = usize::from(buf[p]);
        to = put_cycle(out, to, buf, p, n);
        p = p + 1 + Waits::ENTRY_BYTES * n;
    }
    to
}
