// The text of a name's line, put into a lent buffer from a place on: its links, then the overs at each chance.
// The chance that is marked is the lowest at which more links were over than its limit promises.
ghost use Rattle.text_digits.specs.Text.{Put};
ghost use Rattle.command_trial.specs.Text.{head_text, chance_text, mark_text, unknown_text};

use text_digits::{put, put_decimal};

// Puts the name and its links at the front.
pub fn put_head(out: &mut [u8], name: &[u8], links: u64) -> usize
    ensures { Put out.old 0 (head_text name.now links) out.new result }
{
    let p = put(out, 0, name);
    let q = put(out, p, b": links ");
    put_decimal(out, q, links)
}

// Puts the overs at a chance.
pub fn put_chance(out: &mut [u8], at: usize, chance: u64, overs: u64, marked: bool) -> usize
    ensures { Put out.old at (chance_text chance overs marked) out.new result }
{
    let p = put(out, at, b"; over at ");
    let q = put_decimal(out, p, chance);
    let r = put(out, q, b" in a million: ");
    let s = put_decimal(out, r, overs);
    put_mark(out, s, marked)
}

// Puts the lines with unknown names, as a line.
pub fn put_unknown(out: &mut [u8], lines: u64) -> usize
    ensures { Put out.old 0 (unknown_text lines) out.new result }
{
    let p = put(out, 0, b"unknown names: lines ");
    let q = put_decimal(out, p, lines);
    put(out, q, b"\n")
}

// Puts the mark, where there is one.
fn put_mark(out: &mut [u8], at: usize, marked: bool) -> usize
    ensures { Put out.old at (mark_text marked) out.new result }
{
    if marked {
        put(out, at, b", MORE THAN PROMISED")
    } else {
        put(out, at, b"")
    }
}
