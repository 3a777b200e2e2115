// Room for every index: no volume's is longer than 38,914 bytes (`Index-short`), so that making one in this room is never declined by 15
// (`make_has_room`).
ghost use Rattle.std.specs.Prelude.{◌≡◌, suc, length, replicate};
ghost use Rattle.journal_index.specs.Begun.{max_index};

// The most bytes of a volume's index: 1,024 records of 64 bytes, each of another name of 32 bytes.
pub const MAX_INDEX: usize = 38_914;

// Room for the longest index and one byte more, which shows that a file is too long. An index ends with a 0, the highest byte of a start or of its
// count: the room's bytes are not 0, so that an index that is cut short in it is told from a whole one. Its length is a numeral, and not
// MAX_INDEX + 1: an array's length may not be computed.
pub fn index_room() -> [u8; 38_915]
    ensures value { result ≡ replicate (suc max_index) 255 }
    ensures value_2 { 38_915 ≡ length result }
{
    [255; 38_915]
}
