// What a journal holds up to a length, by a rule: its records one after the other, until the bytes end or a field or a record is refused.
// One pass serves scan, reading and append: besides the count it keeps what is asked of record i.
ghost use Rattle.std.specs.Prelude.{◌≡◌, ◌≤◌};
ghost use Rattle.journal_spec.specs.Scan.{contents_of};
ghost use Rattle.journal.specs.Handed.{as_rule};
ghost use Rattle.journal.specs.Told.{by_number};
ghost use Rattle.journal.specs.Contents.{contents_read, records_read, shown_next};

use crate::Fault;
use crate::field::Stop;
use crate::profile::Rule;
use crate::quantiles::none_known;
use crate::record::{Entry, Head, record_by};
use refusals::Refusal;

// The longest journal, in bytes.
pub const MAX_LENGTH: usize = 65_536;

// A length beyond the slice or the longest journal is refused at place 0.
const LENGTH_FAULT: Fault = Fault {
    refusal: Refusal::Length,
    place: 0,
};

// What is asked of record i: its first byte's place and its bytes' number, whether its times are all equal, and how many they are.
#[derive(Clone, Copy)]
pub struct Shown {
    pub start: usize,
    pub size: usize,
    pub flat: bool,
    pub times: u64,
}

// The number of the records that stand, the committed length, the last record's form and day, and what is asked of record i, if there is one.
#[derive(Clone, Copy)]
pub struct Contents {
    pub records: usize,
    pub committed: usize,
    pub last: Head,
    pub shown: Option<Shown>,
}

// The journal of a length in a slice, or its first fault.
pub fn contents_of(v: &[u8], len: usize, i: usize, rule: Rule) -> Result<Contents, Fault>
    ensures { by_number result ≡ contents_read i (contents_of (as_rule rule) v.now len) }
{
    if v.len() < len || MAX_LENGTH < len {
        return Err(LENGTH_FAULT);
    }
    records_of(&v[..len], i, rule)
}

// The records of a journal that takes all of a slice. The loop goes on at the place after each record, which has as many bytes as its counts say,
// so that no `for` fits it.
fn records_of(b: &[u8], i: usize, rule: Rule) -> Result<Contents, Fault>
    ensures { by_number result ≡ records_read i (as_rule rule) b.now }
{
    let mut kept = none_known();
    let mut records: usize = 0;
    let mut committed: usize = 0;
    let mut last = Head { form: 0, day: 0 };
    let mut shown: Option<Shown> = None;
    loop {
        match record_by(b, committed, last, rule, &mut kept) {
            Ok(e) => {
                shown = shown_next(shown, records == i, committed, e);
                last = Head {
                    form: e.form,
                    day: e.day,
                };
                committed = e.next;
                records += 1;
            }
            Err(Stop::Short) => return Ok(Contents {
                records,
                committed,
                last,
                shown,
            }),
            Err(Stop::Refused(fault)) => return Err(fault),
        }
    }
}

// What is asked of record i after one record more, by whether that is the one.
fn shown_next(shown: Option<Shown>, this: bool, at: usize, e: Entry) -> Option<Shown>
    requires { at ≤ e.next }
    ensures { result ≡ shown_next shown this at e }
{
    if !this {
        return shown;
    }
    Some(Shown {
        start: at,
        size: e.next - at,
        flat: e.flat,
        times: e.times,
    })
}
