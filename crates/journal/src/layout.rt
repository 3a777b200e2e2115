// A record's bytes laid out in an array, as document 01's leaf has them: form, day, and four sections, each after its count.
// As with text_digits' `put`, what has no room is left out, so that any array is fine; one of `MAX_RECORD` bytes has room for every record.
ghost use Rattle.std.specs.Prelude.{◌≡◌, ℕ, ◌++◌, ◌≤◌, map};
ghost use Rattle.text_digits.specs.Text.{Put};
ghost use Rattle.limit.specs.Formula.{sample_form};
ghost use Rattle.journal_spec.specs.Bytes.{bytes_of};
ghost use Rattle.journal_spec.specs.Section.{section_bytes};
ghost use Rattle.journal.specs.Handed.{bytes_from};

use crate::offer::Offer;
use limit::SAMPLE_FORM;
use text_digits::put;

// The bytes of the longest record.
pub const MAX_RECORD: usize = 652;

// The record of what is offered with its limits, from the array's front on. Answers its length.
pub(crate) fn lay_record(out: &mut [u8], offer: &Offer, limits: &[u64]) -> usize
    ensures { Put out.old 0 (bytes_from offer.now.day offer.now.name.now offer.now.chances.now offer.now.times.now limits.now)
        out.new result }
{
    let of_head = lay_head(out, offer.day);
    let of_name = lay_bytes(out, of_head, offer.name);
    let of_chances = lay_section(out, of_name, 4, offer.chances);
    let of_times = lay_section(out, of_chances, 4, offer.times);
    lay_section(out, of_times, 8, limits)
}

// Form and day.
fn lay_head(out: &mut [u8], day: u16) -> usize
    ensures { Put out.old 0 (bytes_of 2 sample_form ++ bytes_of 2 day) out.new result }
{
    let of_form = lay_number(out, 0, 2, SAMPLE_FORM);
    lay_number(out, of_form, 2, day as u64)
}

// The name's section: the count of its bytes, and these, put at once. As a section of numbers of one byte each an append takes up to half its time more.
fn lay_bytes(out: &mut [u8], at: usize, bytes: &[u8]) -> usize
    ensures { Put out.old at (section_bytes 1 bytes.now) out.new result }
{
    let p = lay_number(out, at, 2, bytes.len() as u64);
    put(out, p, bytes)
}

// What a section of numbers holds: chances or times, or the bits of limits.
trait Number: Copy {
    ghost value: { Self → ℕ };

    // The number itself.
    fn number(self) -> u64
        ensures { result ≡ value self };
}

impl Number for u32 {
    ghost value = { λ x. x };

    fn number(self) -> u64 {
        self as u64
    }
}

impl Number for u64 {
    ghost value = { λ x. x };

    fn number(self) -> u64 {
        self
    }
}

// A section of numbers: their count, and these in w bytes each.
fn lay_section<T: Number>(out: &mut [u8], at: usize, w: usize, numbers: &[T]) -> usize
    requires { w ≤ 8 }
    ensures { Put out.old at (section_bytes w (map T.value numbers.now)) out.new result }
{
    let mut next = lay_number(out, at, 2, numbers.len() as u64);
    for x in numbers {
        next = lay_number(out, next, w, x.number());
    }
    next
}

// A number in w bytes, the lowest first.
fn lay_number(out: &mut [u8], at: usize, w: usize, x: u64) -> usize
    requires { w ≤ 8 }
    ensures { Put out.old at (bytes_of w x) out.new result }
{
    put(out, at, &x.to_le_bytes()[..w])
}
