// `awaqlla selftest`: replays stored answers, and says whether this machine gives their bits.
// They are the Rust's and the papers' (tools/selftest-stored), of quantile, limit, listing, and an append cut after every byte.
#![tactic(auto)]

ghost use Rattle.std.specs.Prelude.{◌≡◌, ◌≤◌, length};
ghost use Rattle.command_selftest.specs.Replay.{ending_of};

use command_io::{Status, print_verdict, write_output};

mod limits;
mod quantiles;
mod stored;
mod volume;

use limits::{Row, limit_differing};
use quantiles::quantiles_differing;
use stored::{ANSWERS, ARGUMENTS, LIMITS};

// A line for each part, and the verdict: `same`, or `differs`.
pub fn selftest(rt: &HostRuntime) -> Status {
    let quantiles = quantiles_differing(&ARGUMENTS, &ANSWERS) == 0;
    let limits = limits_differing(&LIMITS) == 0;
    let listing = volume::is_listed();
    let cuts = volume::are_cuts_finished();
    let same = quantiles && limits && listing && cuts;
    let written = told(rt, b"quantile: 64 answers of the Rust", quantiles)
        && told(
            rt,
            b"limit: 12 limits of two times, four figures each",
            limits,
        )
        && told(rt, b"listing: a volume of 12 records", listing)
        && told(
            rt,
            b"append: cut after each of 61 bytes, and finished",
            cuts,
        )
        && verdict(rt, same);
    ending(same).if_written(written)
}

// A part's line; whether it is written.
fn told(rt: &HostRuntime, what: &[u8], same: bool) -> bool {
    let end: &[u8] = if same {
        b": the same\n"
    } else {
        b": OTHER BITS\n"
    };
    write_output(rt, what) && write_output(rt, end)
}

// The last line; whether it is written.
fn verdict(rt: &HostRuntime, same: bool) -> bool {
    print_verdict(rt, if same { b"same\n" } else { b"differs\n" })
}

// How the command ends.
fn ending(same: bool) -> Status
    ensures { result ≡ ending_of same }
{
    if same { Status::Done } else { Status::Refused }
}

// How many figures of the stored limits differ.
fn limits_differing(rows: &[Row]) -> usize
    requires { length rows.now ≤ 12 }
{
    let mut differing = 0;
    for row in rows {
        differing += limit_differing(*row);
    }
    differing
}
