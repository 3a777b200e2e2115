// Replays stored cases of the journal's scan and reading: reads lines from standard input that put bytes into a buffer or
// expect an answer, and compares each answer. The output's last line is the verdict.
#![tactic(auto)]

mod compare;
mod line;
mod store;
mod tally;

use replay_lines::{Output, Tally, read_full};
use std::env::{Env, FillError};
use tally::tally_chunk;

const PROGRAM: [u8; 12] = *b"replay_cases";

// Room for 72 lines.
const LINES: usize = 4032;

// The longest journal and 32 bytes more.
const JOURNAL: usize = 65568;

fn main(rt: HostRuntime) {
    let out = Output {
        rt: &rt,
        program: &PROGRAM,
    };
    if has_words(&rt) {
        out.print(b"usage: replay_cases < CASES\n");
        out.print(
            b"A line is as tools/make-cases writes it: bytes for the buffer, or a question and its answer.\n",
        );
        return;
    }
    out.print_verdict(replay(&rt, out));
}

// Whether the program was given a word.
fn has_words(rt: &HostRuntime) -> bool {
    let mut first = [0u8; 1];
    !matches!(rt.arg(1, &mut first), Err(FillError::NotPresent))
}

// Reads to the end of the input, as many lines at a time as the buffer holds. Nothing says that an input ends: the turns come to an end that no run
// reaches.
fn replay(rt: &HostRuntime, out: Output) -> Tally {
    let mut tally = Tally::ZERO;
    let mut v = [0; JOURNAL];
    let mut buf = [0; LINES];
    for _ in 0..u64::MAX {
        let n = read_full(rt, &mut buf);
        tally = tally_chunk(out, &buf[..n], &mut v, tally);
        if n < LINES {
            break;
        }
    }
    tally
}
