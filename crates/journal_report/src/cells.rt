// Columns put into a lent line: what separates them, and spaces to a width, or a tab.
// Each answers the place behind what it put. The line and the place stay two parameters, for the reason in crate text_digits.
ghost use Rattle.std.specs.Prelude.{[], ◌∷◌, replicate};
ghost use Rattle.text_digits.specs.Text.{Put};
ghost use Rattle.journal_spec.specs.Log.{space};
ghost use Rattle.journal_report.specs.Slot.{gap, fill, column};

use text_digits::put;

// A tab or a space.
#[tactic(auto, unfolding(crate::specs::Slot::gap))]
pub(crate) fn put_gap(out: &mut [u8], place: usize, tabs: bool) -> usize
    ensures { Put out.old place (gap tabs ∷ []) out.new result }
{
    if tabs {
        put(out, place, b"\t")
    } else {
        put(out, place, b" ")
    }
}

// The spaces that a text of some size lacks to a width.
pub fn put_fill(out: &mut [u8], place: usize, tabs: bool, width: usize, size: usize) -> usize
    ensures { Put out.old place (fill tabs width size) out.new result }
{
    if tabs {
        return place;
    }
    put_spaces(out, place, width.saturating_sub(size))
}

// So many spaces.
fn put_spaces(out: &mut [u8], place: usize, n: usize) -> usize
    ensures { Put out.old place (replicate n space) out.new result }
{
    let mut p = place;
    for _ in 0..n {
        p = put(out, p, b" ");
    }
    p
}

// A column with its text to the right.
pub(crate) fn put_column(
    out: &mut [u8],
    place: usize,
    tabs: bool,
    width: usize,
    text: &[u8],
) -> usize
    ensures { Put out.old place (column tabs width text.now) out.new result }
{
    let p = put_gap(out, place, tabs);
    let q = put_fill(out, p, tabs, width, text.len());
    put(out, q, text)
}
