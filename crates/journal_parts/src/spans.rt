// Where the sections of a record stand, found from their counts. Nothing is judged: the scan has done that.
// A section that the bytes do not hold to its end does not stand, and then no section behind it does.
ghost use Rattle.std.specs.Prelude.{◌≡◌, ◌≤◌, ◌<◌};
ghost use Rattle.journal_parts.specs.Spans.{head_at, span_at, span_after, name_span, spans_at, all_of, part_of};

use crate::number::number_in;

// The place of a section's first number, how many numbers there are, and the place after them.
#[derive(Clone, Copy)]
pub struct Span {
    pub first: usize,
    pub count: usize,
    pub next: usize,
}

// The sections of a record, as many as stand: all do if the last does.
#[derive(Clone, Copy)]
pub struct Spans {
    pub name: Option<Span>,
    pub chances: Option<Span>,
    pub times: Option<Span>,
    pub limits: Option<Span>,
}

// The sections of a record that stands whole.
#[derive(Clone, Copy)]
pub struct Sections {
    pub name: Span,
    pub chances: Span,
    pub times: Span,
    pub limits: Span,
}

impl Spans {
    // All four, if they stand.
    #[tactic(auto, unfolding(crate::specs::Spans::all_of))]
    pub fn all(self) -> Option<Sections>
        ensures { result ≡ all_of self }
    {
        Some(Sections {
            name: self.name?,
            chances: self.chances?,
            times: self.times?,
            limits: self.limits?,
        })
    }
}

// The sections of the record at a place.
#[tactic(auto, unfolding(crate::specs::Spans::spans_at))]
pub fn spans_at(b: &[u8], at: usize) -> Spans
    ensures { result ≡ spans_at at b.now }
{
    let name = name_at(b, at);
    let chances = span_after(b, name, 4);
    let times = span_after(b, chances, 4);
    let limits = span_after(b, times, 8);
    Spans {
        name,
        chances,
        times,
        limits,
    }
}

// The name's section.
#[tactic(auto, unfolding(crate::specs::Spans::name_span))]
pub(crate) fn name_at(b: &[u8], at: usize) -> Option<Span>
    ensures { result ≡ name_span at b.now }
{
    span_after(b, head_at(b, at), 1)
}

// The form and the day at a place, before the first section.
#[tactic(auto, using(crate::proofs::Reached::head_stands, crate::proofs::Reached::head_beyond))]
fn head_at(b: &[u8], at: usize) -> Option<Span>
    ensures { result ≡ head_at at b.now }
{
    let room = b.len().checked_sub(at)?;
    if room < 4 {
        return None;
    }
    Some(Span {
        first: at,
        count: 0,
        next: at + 4,
    })
}

// The section of numbers of w bytes behind another section.
#[tactic(auto, unfolding(crate::specs::Spans::span_after))]
fn span_after(b: &[u8], before: Option<Span>, w: usize) -> Option<Span>
    requires { (0 < w) × (w ≤ 8) }
    ensures { result ≡ span_after w before b.now }
{
    span_at(b, before?.next, w)
}

// The section of numbers of w bytes at a place.
#[tactic(auto, using(crate::proofs::Reached::span_beyond, crate::proofs::Rooms::span_fits, crate::proofs::Rooms::span_lacks))]
fn span_at(b: &[u8], at: usize, w: usize) -> Option<Span>
    requires { (0 < w) × (w ≤ 8) }
    ensures { result ≡ span_at w at b.now }
{
    let behind = b.len().checked_sub(at)?;
    let room = behind.checked_sub(2)?;
    let count = number_in(b, at, 2) as usize;
    if room / w < count {
        return None;
    }
    Some(Span {
        first: at + 2,
        count,
        next: at + 2 + count * w,
    })
}

// The bytes of a section's numbers, none where they do not all stand.
#[tactic(auto, unfolding(crate::specs::Spans::part_of))]
pub fn part_of<'a>(b: &'a [u8], s: Option<Span>) -> &'a [u8]
    ensures { result.now ≡ part_of s b.now }
{
    let Some(Span { first, next, .. }) = s else {
        return &[];
    };
    b.get(first..next).unwrap_or(&[])
}
