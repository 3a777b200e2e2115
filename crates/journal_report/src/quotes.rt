// The last columns of a line: the limits with their chances, rounded up to whole ticks, in milliseconds.
// All that a record has, or those of the chances asked for.
ghost use Rattle.std.specs.Prelude.{◌≡◌, ◌+◌, ◌*◌, ◌≤◌, List, length};
ghost use Rattle.text_digits.specs.Text.{Put};
ghost use Rattle.journal_spec.specs.Bytes.{numbers_in};
ghost use Rattle.journal_parts.specs.Spans.{Inside, numbers_of, spans_at};
ghost use Rattle.journal_report.specs.Slot.{Quote, column, slot_text, quotes_of, limit_for, limit_width, quote_columns, asked_columns, limit_columns};

use crate::cells::put_column;
use journal_parts::{Sections, number_at};
use std::marker::Model;
use text_digits::{put, put_decimal};
use text_ticks::{put_ticks, ticks_up};

// The width of a column.
const LIMIT_WIDTH: usize = 16;

// The most bytes of a quote, whatever its chance and its limit are: law `slot_fits`.
const MAX_QUOTE: usize = 39;

// A NaN's pattern, which has no whole ticks: a dash is printed.
const NO_LIMIT: u64 = 0x7ff8_0000_0000_0000;

// The chances and the limits of a record, as many of each, where they stand in its bytes.
#[derive(Drop)]
struct Quotes<'a> {
    bytes: &'a [u8],
    chances: usize,
    limits: usize,
    count: usize,
}

// Each chance with its limit; both stand inside the bytes.
impl<'a> Model for Quotes<'a> {
    ghost Value = { List Quote };

    ghost view = { λ q. quotes_of (numbers_in 4 q.count q.chances q.bytes.now) (numbers_in 8 q.count q.limits q.bytes.now) };

    ghost invariant = { λ q. (q.chances + q.count * 4 ≤ length q.bytes.now) × (q.limits + q.count * 8 ≤ length q.bytes.now) };
}

// The limits at the chances asked for; where none is, all.
pub(crate) fn put_limits(
    v: &[u8],
    s: Sections,
    tabs: bool,
    asked: &[u32],
    out: &mut [u8],
    place: usize,
) -> usize
    requires { Inside 4 s.chances v.now × Inside 8 s.limits v.now }
    ensures { Put out.old place
        (limit_columns tabs asked.now (quotes_of (numbers_of 4 s.chances v.now) (numbers_of 8 s.limits v.now)))
        out.new result }
{
    let quotes = Quotes {
        bytes: v,
        chances: s.chances.first,
        limits: s.limits.first,
        count: s.chances.count.min(s.limits.count),
    };
    if asked.is_empty() {
        quotes.put_all(tabs, out, place)
    } else {
        quotes.put_asked(tabs, asked, out, place)
    }
}

impl<'a> Quotes<'a> {
    // Every limit.
    fn put_all(&self, tabs: bool, out: &mut [u8], place: usize) -> usize
        ensures { Put out.old place (quote_columns tabs self.now) out.new result }
    {
        let mut p = place;
        for i in 0..self.count {
            let chance = number_at(self.bytes, self.chances + i * 4, 4);
            let limit = number_at(self.bytes, self.limits + i * 8, 8);
            p = put_limit(out, p, tabs, chance, limit);
        }
        p
    }

    // The limits at the chances asked for.
    fn put_asked(&self, tabs: bool, asked: &[u32], out: &mut [u8], place: usize) -> usize
        ensures { Put out.old place (asked_columns tabs asked.now self.now) out.new result }
    {
        let mut p = place;
        for asked_for in asked {
            let chance = u64::from(*asked_for);
            let limit = self.limit_for(chance);
            p = put_limit(out, p, tabs, chance, limit);
        }
        p
    }

    // The limit at a chance.
    fn limit_for(&self, wanted: u64) -> u64
        ensures { result ≡ limit_for wanted self.now }
    {
        for i in 0..self.count {
            if number_at(self.bytes, self.chances + i * 4, 4) == wanted {
                return number_at(self.bytes, self.limits + i * 8, 8);
            }
        }
        NO_LIMIT
    }
}

// A limit's column.
fn put_limit(out: &mut [u8], place: usize, tabs: bool, chance: u64, limit: u64) -> usize
    ensures { Put out.old place (column tabs limit_width (slot_text chance limit)) out.new result }
{
    let mut text = [0u8; MAX_QUOTE];
    let size = put_quote(&mut text, chance, limit);
    put_column(out, place, tabs, LIMIT_WIDTH, &text[..size])
}

// `chance:limit`, at the front of a line.
fn put_quote(out: &mut [u8], chance: u64, limit: u64) -> usize
    ensures { Put out.old 0 (slot_text chance limit) out.new result }
{
    let p = put_decimal(out, 0, chance);
    let q = put(out, p, b":");
    put_ticks(out, q, ticks_up(limit))
}
