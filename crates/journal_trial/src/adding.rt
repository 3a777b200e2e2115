// A log in pieces: what each has for the positions of the index is added to a table, nine numbers to a position, its links and the overs at each of
// eight chances; and the lines with unknown names are added up. The law `Piece-Added` says that this is the trial of the whole log.
ghost use Rattle.std.specs.Prelude.{◌≡◌, ◌≤◌, length, slice_index};
ghost use Rattle.journal_trial_spec.specs.Trial.{try_entry, try_unknown};
ghost use Rattle.journal_trial.specs.Answers.{meaning};
ghost use Rattle.journal_trial.specs.Owning.{Owned};
ghost use Rattle.journal_trial.specs.Strangers.{unknown_by};
ghost use Rattle.journal_trial.specs.Adding.{number_here, added_first, numbers_for, answer_after};

use crate::answer::{TrialError, refused};
use crate::together::{ALL_NUMBERS, count_all};
use journal::Fault;
use journal_index::check_index;
use journal_parts::number_in;

// The numbers of a position.
pub const NUMBERS: usize = 9;

// Tries a piece of a log, adds its numbers to the table, and answers what the pieces so far come to: `before` is the answer of those before it, and
// `place` where it starts in the log. Sums are modulo 2^64.
pub fn add_piece(
    piece: &[u8],
    v: &[u8],
    len: usize,
    index: &[u8],
    before: Result<u64, TrialError>,
    place: usize,
    table: &mut [u64],
) -> Result<u64, TrialError>
    ensures value { meaning result
        ≡ answer_after (meaning before) place (unknown_by (try_unknown piece.now v.now len index.now)) }
    ensures table_after { table.new ≡ added_first table.old (numbers_for index.now)
        (number_here (try_entry piece.now v.now len index.now)) }
{
    let here = add_here(piece, v, len, index, table);
    answer_after(before, place, here)
}

// Adds the numbers of all positions, and answers for the lines with unknown names: one pass over the piece.
pub(crate) fn add_here(
    piece: &[u8],
    v: &[u8],
    len: usize,
    index: &[u8],
    table: &mut [u64],
) -> Result<u64, TrialError>
    ensures value { meaning result ≡ unknown_by (try_unknown piece.now v.now len index.now) }
    ensures table_after { table.new ≡ added_first table.old (numbers_for index.now)
        (number_here (try_entry piece.now v.now len index.now)) }
{
    match check_index(v, len, index) {
        Ok(()) => add_own(piece, v, len, index, table),
        Err(error) => Err(refused(piece, TrialError::from(error))),
    }
}

// The same with the journal's own index. Nothing is added where a line is refused.
fn add_own(
    piece: &[u8],
    v: &[u8],
    len: usize,
    index: &[u8],
    table: &mut [u64],
) -> Result<u64, TrialError>
    requires { Owned v.now len index.now }
    ensures value { meaning result ≡ unknown_by (try_unknown piece.now v.now len index.now) }
    ensures table_after { table.new ≡ added_first table.old (numbers_for index.now)
        (number_here (try_entry piece.now v.now len index.now)) }
{
    let mut counts: [u64; ALL_NUMBERS] = [0; ALL_NUMBERS];
    let lines = count_all(piece, v, index, &mut counts)?;
    let numbers = NUMBERS * (number_in(index, 0, 2) as usize);
    add_counts(table, &counts, numbers);
    Ok(lines)
}

// Adds counts to the first numbers of the table.
fn add_counts(table: &mut [u64], counts: &[u64], numbers: usize)
    requires { numbers ≤ length counts.now }
    ensures { table.new ≡ added_first table.old numbers (λ i. slice_index counts.now i) }
{
    for i in 0..numbers.min(table.len()) {
        table[i] = table[i].wrapping_add(counts[i]);
    }
}

// The answer with one piece more, which starts at a place of the log. A refusal before it has no lines.
fn answer_after(
    before: Result<u64, TrialError>,
    place: usize,
    here: Result<u64, TrialError>,
) -> Result<u64, TrialError>
    ensures { meaning result ≡ answer_after (meaning before) place (meaning here) }
{
    match here {
        Ok(lines) => Ok(before.unwrap_or(0).wrapping_add(lines)),
        Err(TrialError::DeclinedAt(line)) => Err(TrialError::DeclinedAt(Fault {
            place: place.wrapping_add(line.place),
            ..line
        })),
        Err(other) => Err(other),
    }
}
