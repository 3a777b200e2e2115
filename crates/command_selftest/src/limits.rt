// A stored limit of two times beside the limit operation: how many of its four figures differ.
// A row has what is asked and the figures' bits.
ghost use Rattle.std.specs.Prelude.{◌≡◌, ◌≤◌};
ghost use Rattle.command_selftest.specs.Replay.{figures_differing, limit_differing};

use crate::quantiles::other_bits;
use double_bits::bits_of;
use limit::Figures;

#[derive(Clone, Copy)]
pub(crate) struct Row {
    pub form: u64,
    pub chance: u32,
    pub first: u32,
    pub second: u32,
    pub mean: u64,
    pub spread: u64,
    pub quantile: u64,
    pub limit: u64,
}

// How many figures of a row the limit operation answers otherwise; all four where it refuses.
pub(crate) fn limit_differing(row: Row) -> usize
    ensures value { result ≡ limit_differing row }
    ensures upper_bound { result ≤ 4 }
{
    let times = [row.first, row.second];
    match limit::limit(row.form, &times, row.chance) {
        Ok(f) => figures_differing(row, f),
        Err(_) => 4,
    }
}

// The same of the figures themselves.
fn figures_differing(row: Row, f: Figures) -> usize
    ensures value { result ≡ figures_differing row f }
    ensures upper_bound { result ≤ 4 }
{
    let mean = other_bits(bits_of(f.mean), row.mean);
    let spread = other_bits(bits_of(f.spread), row.spread);
    let quantile = other_bits(bits_of(f.quantile), row.quantile);
    let limit = other_bits(bits_of(f.limit), row.limit);
    mean + spread + quantile + limit
}
