// An append in memory, and the part of the slice that it writes: the record, from the committed length to the new length.
// The file gets that part and no other byte.
ghost use Rattle.std.specs.Prelude.{◌≡◌, ◌≤◌, false, length, IfOk};
ghost use Rattle.journal_spec.specs.Scan.{max_length};
ghost use Rattle.journal.specs.Handed.{as_rule, offer_from};
ghost use Rattle.journal_index.specs.Outcome.{handed};
ghost use Rattle.command_append.specs.Extension.{Extends};

use journal::{AppendError, Asked, Budget, FIXED_SIZE, Rule};
use journal_index::append_beside;

// Where the written part starts and ends.
#[derive(Clone, Copy, Debug, PartialEq, Eq)]
pub struct Extension {
    pub start: usize,
    pub end: usize,
}

// What is offered, and by which rule.
#[derive(Clone, Copy)]
pub struct Offer<'a> {
    pub day: u16,
    pub rule: Rule,
    pub name: &'a [u8],
    pub chances: &'a [u32],
    pub times: &'a [u32],
}

// Appends to the journal of a length in a slice, and keeps an index in its buffer where one is told. The part's start is worked out from its end, so
// that the journal is scanned once. The second clause says what lending the part asks, the third that a buffer stays where no index is told.
pub fn extend(
    v: &mut [u8],
    len: usize,
    offer: Offer,
    index: &mut [u8],
    indexed: bool,
) -> Result<Extension, AppendError>
    ensures extends { Extends v.old len (as_rule offer.entry.rule)
        (offer_from offer.entry.day offer.entry.name.now offer.entry.chances.now offer.entry.times.now)
        (handed indexed index.old) result v.new (handed indexed index.new) }
    ensures start_le_end { IfOk result (λ part. (part.start ≤ part.end) × (part.end ≤ length v.new) × (part.start ≤ max_length)) }
    ensures index_unchanged { indexed ≡ false → index.new ≡ index.old }
{
    let Offer {
        day,
        rule,
        name,
        chances,
        times,
    } = offer;
    let all = Asked {
        day,
        budget: Budget::All,
        rule,
    };
    match append_beside(v, len, name, chances, times, index, indexed, all) {
        Ok(end) => {
            // the record has as many limits as chances
            let size = FIXED_SIZE + name.len() + 12 * chances.len() + 4 * times.len();
            Ok(Extension {
                start: end - size,
                end,
            })
        }
        Err(error) => Err(error),
    }
}
