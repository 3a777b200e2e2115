// The square root, the quantile and the inverse error function on bit patterns.
// Each equals its definition for every pattern.
ghost use Rattle.std.specs.Prelude.{◌≡◌};
ghost use Rattle.std.specs.Float.{binary64};
ghost use Rattle.std.specs.Float.Ieee.{of_bits, to_bits};
ghost use Rattle.sqrt.specs.Sqrt.{sqrt_of};
ghost use Rattle.pxfm.specs.Inverfc.{f_erfcinv_bits};
ghost use Rattle.pxfm.specs.Inverf.{f_erfinv_bits};

pub fn sqrt_bits(x: u64) -> u64
    ensures { result ≡ to_bits binary64 (sqrt_of (of_bits binary64 x)) }
{
    sqrt::sqrt_bits(x)
}

pub fn f_erfcinv_bits(x: u64) -> u64
    ensures { result ≡ f_erfcinv_bits x }
{
    pxfm::err::inverfc::f_erfcinv_bits(x)
}

pub fn f_erfinv_bits(x: u64) -> u64
    ensures { result ≡ f_erfinv_bits x }
{
    pxfm::err::inverf::f_erfinv_bits(x)
}
