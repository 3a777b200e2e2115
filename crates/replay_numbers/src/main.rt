// Replays stored numbers of f_erfcinv and f_erfinv, from standard input: the Rust's answers, all bits; the mirror of the quantile (request 2026-13),
// all bits; and true values, by their distance in units of the last place. The output's last lines count each kind.
#![tactic(auto)]

mod distance;
mod group;
mod kind;
mod line;
mod report;
mod tally;

use kind::Kind;
use replay_lines::{Output, read_full};
use report::{print_group, print_same};
use std::env::{Env, FillError};
use tally::Groups;

const PROGRAM: [u8; 14] = *b"replay_numbers";

// Room for 90 lines.
const ROOM: usize = 4050;

fn main(rt: HostRuntime) {
    let out = Output {
        rt: &rt,
        program: &PROGRAM,
    };
    if has_words(&rt) {
        out.print(b"usage: replay_numbers < NUMBERS\n");
        out.print(
            b"A line is as tools/quantile-vectors, tools/mirror-arguments and tools/series write it: a letter, x, a double, the rest of the way.\n",
        );
        return;
    }
    out.print(b"x below 1e-20 and the distance there in units of the last place, with no bound:\n");
    verdict(out, finished(out, replay(&rt, out)));
}

// Whether the program was given a word.
fn has_words(rt: &HostRuntime) -> bool {
    let mut first = [0u8; 1];
    !matches!(rt.arg(1, &mut first), Err(FillError::NotPresent))
}

// Reads to the end of the input, as many lines at a time as the buffer holds. Nothing says that an input ends: the turns come to an end that no run
// reaches.
fn replay(rt: &HostRuntime, out: Output) -> Groups {
    let mut tally = Groups::none();
    let mut buf = [0; ROOM];
    for _ in 0..u64::MAX {
        let n = read_full(rt, &mut buf);
        tally = tally.tally_chunk(out, &buf[..n]);
        if n < ROOM {
            break;
        }
    }
    tally
}

// What cannot be read counts as a malformed line.
fn finished(out: Output, t: Groups) -> Groups {
    if out.is_read_to_end() {
        t
    } else {
        t.count(None)
    }
}

// The groups, and the last line of the output.
fn verdict(out: Output, t: Groups) {
    let answers = t.of(Kind::Answers);
    let mirror = t.of(Kind::Mirror);
    let small = t.of(Kind::Small);
    let others = t.of(Kind::Others);
    let chances = t.of(Kind::Chances);
    let inverse = t.of(Kind::Inverse);
    print_same(out, b"the Rust's answers", answers);
    print_same(out, b"mirror", mirror);
    print_group(out, b"below 1e-20", t.of(Kind::Far));
    print_group(out, b"from 1e-20", small);
    print_group(out, b"from 1.4e-11", others);
    print_group(out, b"chances", chances);
    print_group(out, b"inverse error function", inverse);
    out.print(b"replay_numbers: differ: ");
    out.print_number(answers.beyond);
    out.print(b" of the Rust's answers, ");
    out.print_number(mirror.beyond);
    out.print(b" of the mirror; beyond their bounds: ");
    out.print_number(chances.beyond);
    out.print(b" chances, ");
    out.print_number(others.beyond);
    out.print(b" from 1.4e-11, ");
    out.print_number(small.beyond);
    out.print(b" from 1e-20, ");
    out.print_number(inverse.beyond);
    out.print(b" of the inverse error function; ");
    out.print_number(t.malformed);
    out.print(b" malformed\n");
}
