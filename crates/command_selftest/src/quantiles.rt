// Stored quantiles beside f_erfcinv: how many differ.
// Arguments and answers are bit patterns.
ghost use Rattle.std.specs.Prelude.{◌≡◌, ◌≤◌};
ghost use Rattle.command_selftest.specs.Replay.{one_if_other, quantiles_differing};

use pxfm::err::inverfc::f_erfcinv_bits;

// How many arguments have a quantile with other bits than those that stand beside them; all of them where the two have not as many.
pub(crate) fn quantiles_differing(x: &[u64], bits: &[u64]) -> usize
    ensures { result ≡ quantiles_differing x.now bits.now }
{
    if x.len() != bits.len() {
        return x.len();
    }
    let mut differing = 0;
    for (argument, answer) in x.iter().zip(bits) {
        differing += other_bits(f_erfcinv_bits(*argument), *answer);
    }
    differing
}

// 1 where two patterns differ, and 0 where they are the same.
pub(crate) fn other_bits(got: u64, wanted: u64) -> usize
    ensures value { result ≡ one_if_other got wanted }
    ensures upper_bound { result ≤ 1 }
{
    usize::from(got != wanted)
}
