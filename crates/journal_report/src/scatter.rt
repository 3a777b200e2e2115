// The columns behind the mark: the number of times, and mean and spread, to the nearest tick.
// A text is made in an array of its own first, since its column needs its length.
ghost use Rattle.std.specs.Prelude.{◌≡◌, Some};
ghost use Rattle.text_digits.specs.Hex.{decimal_digits};
ghost use Rattle.text_digits.specs.Text.{Put};
ghost use Rattle.journal_parts.specs.Spans.{all_of, record_in, spans_at};
ghost use Rattle.journal_report.specs.Slot.{column, near_text, times_width, moment_width, figure_columns};

use crate::cells::put_column;
use journal_listing::moments::{mean_bits, moments_in, spread_bits};
use journal_parts::Sections;
use text_digits::put_decimal;
use text_ticks::{put_ticks, ticks_near};

// The widths of the columns.
const TIMES_WIDTH: usize = 3;

const MOMENT_WIDTH: usize = 8;

// The most digits of a number: law `times_fit`.
const MAX_NUMBER: usize = 20;

// Number of times, mean and spread of the record at a place.
pub(crate) fn put_figures(
    v: &[u8],
    at: usize,
    s: Sections,
    tabs: bool,
    out: &mut [u8],
    place: usize,
) -> usize
    requires { all_of (spans_at at v.now) ≡ Some s }
    ensures { Put out.old place (figure_columns tabs (record_in at s v.now)) out.new result }
{
    let worked = moments_in(v, at);
    let mean = mean_bits(worked);
    let spread = spread_bits(worked);
    let p = put_times(out, place, tabs, s.times.count as u64);
    let q = put_near(out, p, tabs, mean);
    put_near(out, q, tabs, spread)
}

// The number of times.
fn put_times(out: &mut [u8], place: usize, tabs: bool, count: u64) -> usize
    ensures { Put out.old place (column tabs times_width (decimal_digits count)) out.new result }
{
    let mut text = [0u8; MAX_NUMBER];
    let size = put_decimal(&mut text, 0, count);
    put_column(out, place, tabs, TIMES_WIDTH, &text[..size])
}

// A mean or a spread by its bits.
fn put_near(out: &mut [u8], place: usize, tabs: bool, bits: u64) -> usize
    ensures { Put out.old place (column tabs moment_width (near_text bits)) out.new result }
{
    let mut text = [0u8; text_ticks::MAX_TEXT];
    let size = put_ticks(&mut text, 0, ticks_near(bits));
    put_column(out, place, tabs, MOMENT_WIDTH, &text[..size])
}
