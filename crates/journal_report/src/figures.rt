// The lines of a record's figures, each put at the front of a lent buffer: mean, spread and limits by their bits, exactly, and in whole ticks.
// What has no room is left out, as in crate text_digits.
ghost use Rattle.std.specs.Prelude.{◌≡◌};
ghost use Rattle.text_digits.specs.Text.{Put};
ghost use Rattle.journal_report.specs.Figures.{double_text, limit_line, moment_line};

use text_decimal::put_exact;
use text_digits::{put, put_decimal};
use text_ticks::{put_ticks, ticks_near, ticks_up};

// The most bytes that such a line takes, of a record that may stand: law `figures_fit`.
pub const MAX_FIGURE: usize = 156;

// The line of a limit with its chance, and how many bytes it takes.
pub fn limit_line(out: &mut [u8], chance: u64, limit: u64) -> usize
    ensures { Put out.old 0 (limit_line chance limit) out.new result }
{
    let p = put(out, 0, b"limit at ");
    let q = put_decimal(out, p, chance);
    let r = put_double(out, q, b" in a million: bits ", limit);
    let s = put(out, r, b" ticks, rounded up ");
    let t = put_ticks(out, s, ticks_up(limit));
    put(out, t, b" ms\n")
}

// The line of a mean or a spread, behind its words, and how many bytes it takes.
pub fn moment_line(out: &mut [u8], what: &[u8], bits: u64) -> usize
    ensures { Put out.old 0 (moment_line what.now bits) out.new result }
{
    let p = put_double(out, 0, what, bits);
    let q = put(out, p, b" ticks, to the nearest ");
    let r = put_ticks(out, q, ticks_near(bits));
    put(out, r, b" ms\n")
}

// A text, and a double by its bits and exactly.
fn put_double(out: &mut [u8], place: usize, what: &[u8], bits: u64) -> usize
    ensures { Put out.old place (double_text what.now bits) out.new result }
{
    let digits = text_digits::hex_of(bits);
    let p = put(out, place, what);
    let q = put(out, p, &digits);
    let r = put(out, q, b", exactly ");
    put_exact(out, r, bits)
}
