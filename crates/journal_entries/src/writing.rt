// Writing an index: its count at the buffer's front, and an entry at a place. Both answer the place behind what is put.
// As with text_digits' `put`, what has no room is left out, so that any buffer and any place are fine.
ghost use Rattle.std.specs.Prelude.{◌≡◌};
ghost use Rattle.text_digits.specs.Text.{Put};
ghost use Rattle.journal_spec.specs.Bytes.{bytes_of};
ghost use Rattle.journal_spec.specs.Index.{entry_bytes};

use text_digits::put;

// The count of the entries.
pub fn put_count(out: &mut [u8], count: usize) -> usize
    ensures { Put out.old 0 (bytes_of 2 count) out.new result }
{
    put(out, 0, &count.to_le_bytes()[..2])
}

// An entry.
pub fn put_entry(out: &mut [u8], at: usize, name: &[u8], start: usize) -> usize
    ensures { Put out.old at (entry_bytes (record { name = name.entry.now; start = start })) out.new result }
{
    let place = put(out, at, &name.len().to_le_bytes()[..2]);
    let behind = put(out, place, name);
    put(out, behind, &start.to_le_bytes()[..4])
}
