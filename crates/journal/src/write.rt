// Writes a record's bytes, front to back, into the part of the slice that is lent, as far as the budget's end.
// Each byte is written by `step`, which is called only where all bytes before it stand; nothing else here writes.
ghost use Rattle.std.specs.Prelude.{◌≡◌, ◌≤◌, ◌<◌, length};
ghost use Rattle.journal.specs.Stepped.{Front, Stepped, Filled};

// The record, from the part's first byte on, `end` bytes of it. Answers the place after the last. The loop goes on at the place that document 01's
// step answers (`Stepped`, law `in_turn`), so that no `for` over the places fits it.
pub(crate) fn put_record(part: &mut [u8], end: usize, bytes: &[u8]) -> usize
    requires { (end ≤ length part.old) × (end ≤ length bytes.now) }
    ensures filled { Filled bytes.now part.old 0 result part.new }
    ensures value { result ≡ end }
{
    let mut p: usize = 0;
    while p < end {
        p = step(part, p, bytes);
    }
    p
}

// At the place p, before which the record's bytes stand: byte p of the record and no other. Answers the place after it, before which they stand
// then.
fn step(part: &mut [u8], p: usize, bytes: &[u8]) -> usize
    requires { (p < length part.old) × (p < length bytes.now) × Front bytes.now p part.old }
    ensures { Stepped bytes.now part.old p result part.new }
{
    part[p] = bytes[p];
    p + 1
}
