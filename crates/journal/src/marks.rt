// The mark of a record (document 01, Marks and listing; document 02, 2026-07): S if there are fewer than 8 times, else F if all are equal,
// else N. The rule and the letters are here alone; reading and the listing ask here.
ghost use Rattle.std.specs.Prelude.{◌≡◌, ◌*◌, ◌≤◌, length};
ghost use Rattle.journal_spec.specs.Bytes.{numbers_in};
ghost use Rattle.journal_spec.specs.Read.{letter_of, are_equal, mark_from, mark_of, times_in};
ghost use Rattle.journal.specs.Answers.{as_mark};

use journal_parts::{number_at, number_in};

// Below so many times the mark is S.
const FEW_TIMES: u64 = 8;

// Document 01's marks F, S and N.
#[derive(Clone, Copy, Debug, PartialEq, Eq)]
pub enum Mark {
    Flat,
    Few,
    Normal,
}

// The mark's letter.
pub fn letter_of(mark: Mark) -> u8
    ensures { result ≡ letter_of (as_mark mark) }
{
    match mark {
        Mark::Flat => 0x46,
        Mark::Few => 0x53,
        Mark::Normal => 0x4e,
    }
}

// The mark of the times that some bytes hold, for a caller that has not kept their sums.
pub fn mark_of(times: &[u8]) -> Mark
    ensures { as_mark result ≡ mark_of (times_in times.now) }
{
    let n = times.len() / 4;
    let flat = all_equal(times, n);
    mark_from(flat, n as u64)
}

// The mark of so many times, by whether they are all equal.
pub(crate) fn mark_from(flat: bool, times: u64) -> Mark
    ensures { as_mark result ≡ mark_from flat times }
{
    if times < FEW_TIMES {
        return Mark::Few;
    }
    if flat { Mark::Flat } else { Mark::Normal }
}

// Whether the first n numbers of 4 bytes are all equal.
fn all_equal(b: &[u8], n: usize) -> bool
    requires { n * 4 ≤ length b.now }
    ensures { result ≡ are_equal (numbers_in 4 n 0 b.now) }
{
    let first = number_in(b, 0, 4);
    for i in 0..n {
        if number_at(b, i * 4, 4) != first {
            return false;
        }
    }
    true
}
