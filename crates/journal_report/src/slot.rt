// A planner's line of a record that a scan has judged: name, date, mark, number of times, mean, spread, and each limit rounded up to a whole tick.
// `slot_line` writes it into a lent buffer, whatever the bytes, the place and the layout are; where no record stands it writes nothing.
ghost use Rattle.std.specs.Prelude.{◌≡◌, Some};
ghost use Rattle.text_digits.specs.Text.{Put};
ghost use Rattle.journal_parts.specs.Plain.{plain_record_at};
ghost use Rattle.journal_parts.specs.Spans.{all_of, record_in, spans_at};
ghost use Rattle.journal_report.specs.Slot.{slot_line, slot_of};

use crate::front::put_front;
use crate::quotes::put_limits;
use crate::scatter::put_figures;
use journal_parts::{Sections, spans_at};
use text_digits::put;

// How a line is laid out: the width of the names' column, and whether tabs separate the columns, which then have no width.
// The definitions `slot_line` and `report_line` take both, and a caller knows the width in either case, so that they stay two fields.
#[derive(Clone, Copy)]
pub struct Layout {
    pub name: usize,
    pub tabs: bool,
}

// The line of the record at a place, at the front of the buffer, with the limits at the chances asked for, or with all where none is. Answers
// how many bytes it takes.
pub fn slot_line(v: &[u8], at: usize, layout: Layout, asked: &[u32], out: &mut [u8]) -> usize
    ensures { Put out.old 0
        (slot_of layout.tabs layout.name asked.now (plain_record_at at v.now)) out.new result }
{
    let Some(s) = spans_at(v, at).all() else {
        return 0;
    };
    put_slot(v, at, s, layout, asked, out)
}

// The line of a record whose sections stand.
fn put_slot(
    v: &[u8],
    at: usize,
    s: Sections,
    layout: Layout,
    asked: &[u32],
    out: &mut [u8],
) -> usize
    requires { all_of (spans_at at v.now) ≡ Some s }
    ensures { Put out.old 0
        (slot_line layout.tabs layout.name asked.now (record_in at s v.now)) out.new result }
{
    let tabs = layout.tabs;
    let p = put_front(v, at, s, layout.name, tabs, out);
    let q = put_figures(v, at, s, tabs, out, p);
    let r = put_limits(v, s, tabs, asked, out, q);
    put(out, r, b"\n")
}
