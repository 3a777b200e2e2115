// The polynomial behind the logarithms' table (of the Rust's src/pow_exec.rs, `log_poly_1` alone).
// It equals its definition in specs/PowExec.antt.
ghost use Rattle.std.specs.Prelude.{◌≡◌};
ghost use Rattle.pxfm.specs.PowExec.{log_poly1};

use crate::common;
use crate::double_double::DoubleDouble;

const P_1: [u64; 6] = [
    0x3fd5555555555558,
    0xbfd0000000000003,
    0x3fc999999981f535,
    0xbfc55555553d1eb4,
    0x3fc2494526fd4a06,
    0xbfc0001f0c80e8ce,
];

// log(1 + z) - z, for a small z.
pub(crate) fn log_poly_1(z: f64) -> DoubleDouble
    ensures { result ≡ log_poly1 z }
{
    let w = DoubleDouble::from_exact_mult(z, z);
    let t = common::dd_fmla(f64::from_bits(P_1[5]), z, f64::from_bits(P_1[4]));
    let mut u = common::dd_fmla(f64::from_bits(P_1[3]), z, f64::from_bits(P_1[2]));
    let mut v = common::dd_fmla(f64::from_bits(P_1[1]), z, f64::from_bits(P_1[0]));
    u = common::dd_fmla(t, w.hi, u);
    v = common::dd_fmla(u, w.hi, v);
    u = v * w.hi;
    DoubleDouble::new(common::dd_fmla(u, z, -0.5 * w.lo), -0.5 * w.hi)
}
