// Whether a record's bytes stand in the first journal: looked for among the places of its records, sorted by all their bytes.
ghost use Rattle.std.specs.Prelude.{◌≡◌};
ghost use Rattle.journal_spec.specs.Cursor.{records_in};
ghost use Rattle.journal_merge_spec.specs.Records.{is_among};
ghost use Rattle.journal_merge.specs.Records.{ByBytes};

use journal_order::{Key, Keyed};

// Whether one of the records has these bytes.
pub(crate) fn is_among(a: &[u8], places: &[u16], bytes: &[u8]) -> bool
    requires { ByBytes a.now places.now }
    ensures { result ≡ is_among (records_in a.now) bytes.now }
{
    let records = Keyed {
        bytes: a,
        key: Key::Record,
    };
    records.look_up(places, bytes).is_some()
}
