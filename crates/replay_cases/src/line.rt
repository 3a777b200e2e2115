// One stored line: a letter, the numbers that it asks with, and the answer's words that it expects.
// A line is 56 bytes: letter, 5 digits, 16 digits, 16 digits, 1 digit, 5 digits, 5 digits, a byte between two of them, line end.
ghost use Rattle.std.specs.Prelude.{◌≡◌, cond};
ghost use Rattle.journal_spec.specs.Profile.{plain, profile};
ghost use Rattle.replay_cases.specs.Line.{agrees, case_kind, case_numbers, case_of, rule_by, stands};

use replay_lines::number_at;

// What a line asks: eight bytes put into the buffer, or an answer about the journal in the buffer's first `size` bytes.
#[derive(Clone, Copy)]
pub(crate) enum Case {
    Bytes { place: usize, n: u64 },
    Scan { size: usize, len: usize },
    Part { size: usize, len: usize, i: usize },
    Mark { size: usize, len: usize, i: usize },
}

// What the line asks; nothing where it has another form.
pub(crate) fn case_of(line: &[u8]) -> Option<Case>
    ensures { result ≡ case_of line.now }
{
    if line.len() != 56 || line[55] != b'\n' {
        return None;
    }
    case_numbers(line, line[0])
}

// The numbers behind a letter.
fn case_numbers(line: &[u8], letter: u8) -> Option<Case>
    ensures { result ≡ case_numbers line.now letter }
{
    let place = number_at(line, 2, 5)?;
    let n = number_at(line, 8, 16)?;
    let i = number_at(line, 25, 16)?;
    case_kind(letter, place, n, i)
}

// What the letter makes of the numbers.
#[tactic(auto, unfolding(crate::specs::Line::case_kind))]
fn case_kind(letter: u8, place: u64, n: u64, i: u64) -> Option<Case>
    ensures { result ≡ case_kind letter place n i }
{
    let size = place as usize;
    let len = n as usize;
    let i = i as usize;
    match letter {
        b'b' => Some(Case::Bytes { place: size, n }),
        b's' | b'S' => Some(Case::Scan { size, len }),
        b'p' | b'P' => Some(Case::Part { size, len, i }),
        b'm' | b'M' => Some(Case::Mark { size, len, i }),
        _ => None,
    }
}

// Whether a line asks by the profile: its letter is a capital one. A line without a letter asks nothing.
pub(crate) fn by_profile(line: &[u8]) -> bool
    ensures { cond result profile plain ≡ rule_by line.now }
{
    match line {
        [letter, ..] => *letter < b'a',
        [] => true,
    }
}

// Whether a line expects these three words.
#[tactic(auto, unfolding(crate::specs::Line::agrees))]
pub(crate) fn agree(line: &[u8], a: u64, b: u64, c: u64) -> bool
    ensures { result ≡ agrees line.now a b c }
{
    expects(line, 42, 1, a) && expects(line, 44, 5, b) && expects(line, 50, 5, c)
}

// Whether a number stands in so many digits at a place.
fn expects(line: &[u8], place: usize, width: usize, n: u64) -> bool
    ensures { result ≡ stands line.now place width n }
{
    number_at(line, place, width) == Some(n)
}
