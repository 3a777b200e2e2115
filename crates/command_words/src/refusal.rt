// What a refusal means, in words: a row for each.
// The words are put into a lent line.
ghost use Rattle.std.specs.Prelude.{◌≡◌};
ghost use Rattle.text_digits.specs.Text.{Put};
ghost use Rattle.refusals.specs.Refusals.{number_of};
ghost use Rattle.command_words.specs.Refusals.{refusal_words};

use refusals::Refusal;
use text_digits::put;

// All refusals of the papers, by their numbers.
pub(crate) const ALL: [Refusal; 18] = [
    Refusal::Length,
    Refusal::Form,
    Refusal::Day,
    Refusal::Name,
    Refusal::Chance,
    Refusal::Times,
    Refusal::Limit,
    Refusal::Room,
    Refusal::Absent,
    Refusal::Line,
    Refusal::Many,
    Refusal::OldForm,
    Refusal::Index,
    Refusal::IndexRoom,
    Refusal::Torn,
    Refusal::Even,
    Refusal::Share,
    Refusal::Profile,
];

// Puts the words of a refusal's number into a line from a place on, none where no refusal has it, and answers the place behind them.
pub fn put_refusal(line: &mut [u8], place: usize, number: u64) -> usize
    ensures { Put line.old place (refusal_words number) line.new result }
{
    match u32::try_from(number) {
        Ok(n) => put(line, place, words_of(Refusal::from(n))),
        Err(_) => place,
    }
}

// The words of a refusal; none of a number that the papers give none.
pub fn words_of(refusal: Refusal) -> &'static [u8]
    ensures { result.now ≡ refusal_words (number_of refusal) }
{
    match refusal {
        Refusal::Length => b"a volume has at most 65,536 bytes",
        Refusal::Form => b"a record's form is 1 or 2",
        Refusal::Day => b"a day is 0 to 65,535, and not before the day of the record before it",
        Refusal::Name =>
            b"a name has 1 to 32 bytes, each 21 to 7e in hexadecimal: visible ASCII, no space",
        Refusal::Chance => b"a chance is 1 to 999,999 in a million, 1 to 8 of them, rising",
        Refusal::Times => b"a time is 1 to 1,048,575 ticks of 10 microseconds, 2 to 128 of them",
        Refusal::Limit =>
            b"a record has a limit for each chance, with the bits that its times give",
        Refusal::Room =>
            b"a volume has at most 65,536 bytes, and the record has no room behind those that stand: begin a new file",
        Refusal::Absent => b"there is no such record in the volume",
        Refusal::Line =>
            b"a line of the log is a name, one space, 1 to 1,048,575 without leading zeros, and a line end, the last line's too",
        Refusal::Many => b"a record has at most 128 times, and the log has more lines of the name",
        Refusal::OldForm => b"no record of form 1 stands behind one of form 2",
        Refusal::Index =>
            b"the index is that of the volume's records: awaqlla index --make FILE INDEX makes it again",
        Refusal::IndexRoom =>
            b"an index has room in its buffer, with the new record's name in it too",
        Refusal::Torn =>
            b"a volume that is merged ends with a whole record: an append writes over a torn end, awaqlla list shows it",
        Refusal::Even =>
            b"an offered chance is at most 500,000 in a million: beyond even chances a limit is no guarantee",
        Refusal::Share => b"a share of links inside a band is 1 to 999,999 in a million",
        Refusal::Profile =>
            b"a record of the profile for safety controllers has form 2, the chances 1, 10, 100 and 1,000, and at least 32 times",
        Refusal::Other(_) => b"",
    }
}
