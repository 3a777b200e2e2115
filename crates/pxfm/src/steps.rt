// Every function of the port by its number, over bit patterns: what the comparison with the Rust calls, since the functions
// themselves are as private as the Rust's. The numbers are those of the list in rust/functions.rs; the definition is specs/Steps.antt.
ghost use Rattle.std.specs.Prelude.{◌≡◌};
ghost use Rattle.pxfm.specs.Steps.{single_of, patterns_of, result_of, step_of};

use crate::double_double::{BitPair, DoubleDouble};
use crate::err::inverfc;
use crate::{checked, common, polyeval, pow_exec};
use double_bits::{bits_of, of_bits};

// The bit patterns of a pair.
fn patterns(r: DoubleDouble) -> BitPair
    ensures { result ≡ patterns_of r }
{
    BitPair {
        lo: bits_of(r.lo),
        hi: bits_of(r.hi),
    }
}

// A result that is a double, as the high part beside a zero.
fn single(x: f64) -> DoubleDouble
    ensures { result ≡ single_of x }
{
    DoubleDouble::new(0.0, x)
}

// The patterns of the result of the function with a number; of a pair of NaN where no function has it. Each arm makes its own:
// one pair for all arms would be stored and read back, since some of the functions are called with a place for their result.
fn result(which: u32, x0: f64, x1: f64, x2: f64, x3: f64, x4: f64, x5: f64) -> BitPair
    ensures { result ≡ result_of which x0 x1 x2 x3 x4 x5 }
{
    let a = DoubleDouble { lo: x0, hi: x1 };
    let b = DoubleDouble { lo: x2, hi: x3 };
    match which {
        0 => patterns(DoubleDouble::split(x0)),
        1 => patterns(DoubleDouble::from_exact_mult(x0, x1)),
        2 => patterns(DoubleDouble::from_exact_add(x0, x1)),
        3 => patterns(DoubleDouble::from_full_exact_add(x0, x1)),
        4 => patterns(DoubleDouble::from_full_exact_sub(x0, x1)),
        5 => patterns(a.fast_sqrt()),
        6 => patterns(DoubleDouble::mul_add_f64(a, b, x4)),
        7 => patterns(a.recip()),
        8 => patterns(DoubleDouble::div(a, b)),
        9 => patterns(DoubleDouble::mul_f64_add(a, x2, DoubleDouble { lo: x3, hi: x4 })),
        10 => patterns(DoubleDouble::mul_add(a, b, DoubleDouble { lo: x4, hi: x5 })),
        11 => patterns(DoubleDouble::quick_mult(a, b)),
        12 => patterns(DoubleDouble::quick_mult_f64(a, x2)),
        13 => patterns(DoubleDouble::full_add_f64(a, x2)),
        14 => patterns(DoubleDouble::f64_add(x0, DoubleDouble { lo: x1, hi: x2 })),
        15 => patterns(-a),
        16 => patterns(single(a.to_f64())),
        17 => patterns(single(common::f_fmla(x0, x1, x2))),
        18 => patterns(single(common::dd_fmla(x0, x1, x2))),
        19 => patterns(pow_exec::log_poly_1(x0)),
        20 => patterns(single(polyeval::f_polyeval4(x0, x1, x2, x3, x4))),
        21 => patterns(single(polyeval::f_polyeval5(x0, x1, x2, x3, x4, x5))),
        22 => patterns(checked::log_dd(a)),
        23 => patterns(checked::log_d_to_dd(x0)),
        24 => patterns(inverfc::inverf_0p06_to_0p75(a)),
        25 => patterns(inverfc::inverf_asympt_small(a, b)),
        26 => patterns(inverfc::inverf_asympt_long(a, b)),
        27 => patterns(checked::core(a)),
        _ => patterns(checked::nan_pair()),
    }
}

// The patterns of the result at the doubles with six patterns.
pub fn step(which: u32, inp: &[u64; 6]) -> BitPair
    ensures { result ≡ step_of which inp.now }
{
    let x0 = of_bits(inp[0]);
    let x1 = of_bits(inp[1]);
    let x2 = of_bits(inp[2]);
    let x3 = of_bits(inp[3]);
    let x4 = of_bits(inp[4]);
    let x5 = of_bits(inp[5]);
    result(which, x0, x1, x2, x3, x4, x5)
}
