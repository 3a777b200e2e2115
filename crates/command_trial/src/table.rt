// The counts so far: nine numbers for each position of the index, its links and the overs at each of eight chances.
// A volume has at most 1,985 names, since the smallest record has 33 bytes.
ghost use Rattle.std.specs.Prelude.{◌≡◌, length};

use journal_trial::NUMBERS;

// Room for all of them.
pub(crate) fn table_room() -> [u64; 17_874]
    ensures { 17_874 ≡ length result }
{
    [0; 17_874]
}

// A number of a position, 0 where there is none.
pub(crate) fn count_at(table: &[u64], position: usize, which: usize) -> u64 {
    let start = NUMBERS.saturating_mul(position);
    match table.get(start..start.saturating_add(NUMBERS)) {
        Some(row) => row.get(which).copied().unwrap_or(0),
        None => 0,
    }
}
