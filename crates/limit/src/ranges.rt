// The test that a number lies in a range, both ends included.
// Counts, times, sums and chances are all judged by it.
ghost use Rattle.std.specs.Prelude.{◌≡◌};
ghost use Rattle.limit.specs.Times.{in_range};

pub(crate) fn in_range(low: u64, high: u64, x: u64) -> bool
    ensures { result ≡ in_range low high x }
{
    (low..=high).contains(&x)
}
