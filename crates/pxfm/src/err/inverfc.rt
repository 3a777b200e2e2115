// The quantile (the Rust's src/err/inverfc.rs): `f_erfcinv` of every double, with the rational functions between its cuts.
// Each function equals its definition in specs/Inverfc.antt or specs/Rationals.antt.
ghost use Rattle.std.specs.Prelude.{◌≡◌, ◌<◌, true, false, to_bits};
ghost use Rattle.std.specs.Float.{binary64};
ghost use Rattle.std.specs.Float.Ieee.{eq, lt, le};
ghost use Rattle.pxfm.specs.DoubleDouble.{one, new_of, to_f64, mul_add, mul_add_f64};
ghost use Rattle.pxfm.specs.Argument.{tenth, three_quarters, mirrored_of, core_argument};
ghost use Rattle.pxfm.specs.Rationals.{PlainRow, PlainRows10, pair_of, pairs_of10, at, p0p06_to0p75, q0p06_to0p75};
ghost use Rattle.pxfm.specs.Rationals.{p_asympt_small, q_asympt_small, p_asympt_long, q_asympt_long};
ghost use Rattle.pxfm.specs.Rationals.{paired10, paired11, paired14, centred_of, inverf0p06_to0p75, inverf_asympt_small, inverf_asympt_long};
ghost use Rattle.pxfm.specs.Inverfc.{taylor4_of, taylor7_of, horner10, quick_rational, rounds_alike, middle_of, zeta_sqrt, tail_of, erf_core};
ghost use Rattle.pxfm.specs.Inverfc.{inverfc_extra_small, sign_of, central_of, f_erfcinv, f_erfcinv_bits};

use crate::double_double::{BitPair, DoubleDouble};
use crate::logs::fast_log_dd;
use crate::{common, polyeval};

// The coefficients of the rationals: the Rust's lists P, above the line, and Q, below it, of `inverf_0p06_to_0p75`, `inverf_asympt_small` and
// `inverf_asympt_long`. A row is a pair's bit patterns, low part first. Read at literal places they are constants of the machine code.
const P_0P06_TO_0P75: [[u64; 2]; 10] = [
    [0xbc3e06eda42202a0, 0x3f93c2fc5d00e0c8],
    [0xbc6eb374406b33b4, 0xbfc76fcfd022e3ff],
    [0xbc857822d7ffd282, 0x3fe6f8443546010a],
    [0x3c68269c66dfb28a, 0xbff80996754ceb79],
    [0x3c543dce8990a9f9, 0x3ffcf778d5ef0504],
    [0xbc72fc55f73765f6, 0xbff433be821423d0],
    [0xbc66d05fb37c8592, 0x3fdf15f19e9d8da4],
    [0x3c56dfb85e83a2c5, 0xbfb770b6827e0829],
    [0x3bff1472ecdfa403, 0x3f7a98a2980282bb],
    [0x3baffb33d69d6276, 0xbf142a246fd2c07c],
];

const Q_0P06_TO_0P75: [[u64; 2]; 10] = [
    [0xbc36337f24e57cb9, 0x3f92388d5d757e3a],
    [0xbc63dfae43d60e0b, 0xbfc6ca7da581358c],
    [0xbc77656389bd0e62, 0x3fe7c82ce417b4e0],
    [0xbc93679667bef2f0, 0xbffad58651fd1a51],
    [0x3ca2c6cb9eb17fb4, 0x4001bdb67e93a242],
    [0xbc9b58961ba253bc, 0xbffbdaeff6fbb81c],
    [0x3c7861f549c6aa61, 0x3fe91b12cf47da3a],
    [0xbc696dfd665b2f5e, 0xbfc7c5d0ffb7f1da],
    [0x3c1552b0ec0ba7b3, 0x3f939ada247f7609],
    [0xbbcaa226fb7b30a8, 0xbf41be65038ccfe6],
];

const P_ASYMPT_SMALL: [[u64; 2]; 11] = [
    [0x3c936555853a8b2c, 0x3ff0001df06a2515],
    [0x3cea488e802db3c3, 0x404406ba373221da],
    [0xbce27d42419754e3, 0x407b0442e38a9597],
    [0xbd224a407624cbdf, 0x409c9277e31ef446],
    [0x3d4f16ce65d6fea0, 0x40aec3ec005b1d8a],
    [0x3d105bc37bc61b58, 0x40b46be8f860f4d9],
    [0x3d5ca133dcdecaa0, 0x40b3826e6a32dad7],
    [0x3d1d52013ba8aa38, 0x40aae93a603cf3ea],
    [0xbd07a75306df0fc3, 0x4098ab8357dc2e51],
    [0x3d1bb6770bb7a27e, 0x407ebead00879010],
    [0xbbfcbff4a9737936, 0x3f8936117ccbff83],
];

const Q_ASYMPT_SMALL: [[u64; 2]; 11] = [
    [0x0000000000000000, 0x3ff0000000000000],
    [0xbc75b1109d4a3262, 0x40440782efaab17f],
    [0x3d1f7775b207d84f, 0x407b2da74b0d39f2],
    [0xbd3291fdbab49501, 0x409dac8d9e7c90b2],
    [0xbd58d8fdd27707a9, 0x40b178dfeffa3192],
    [0xbd57fc74ad705ce0, 0x40bad19b686f219f],
    [0x3d4075510031f2cd, 0x40be70a598208cea],
    [0xbd5442e109152efb, 0x40b9683ef36ae330],
    [0x3d5398192933962e, 0x40b04b7c4c3ca8ee],
    [0x3d2d04d03598e303, 0x409bd0080799fbf1],
    [0x3d2a988eb552ef44, 0x40815a46f12bafe3],
];

const P_ASYMPT_LONG: [[u64; 2]; 14] = [
    [0x3c97612f9b24a614, 0x3ff0000ba84cc7a5],
    [0xbcee8fe2da463412, 0x40515246546f5d88],
    [0x3d2fa4a2b891b526, 0x40956b6837159b11],
    [0x3d5d673ffad4f817, 0x40c5a1aa3be58652],
    [0x3d8867a1e5506f88, 0x40e65ebb1e1e7c75],
    [0xbd9bbc0764ed8f5b, 0x40fd2064a652e5c2],
    [0xbda78e569c0d237f, 0x410a385c627c461c],
    [0xbdab3123ebc465d7, 0x4110f05ca2b65fe5],
    [0x3d960def35955192, 0x4110bb079af2fe08],
    [0xbd97904816054836, 0x410911c24610c11c],
    [0xbd937745e9192593, 0x40fc603244adca35],
    [0xbd65fbc476d63050, 0x40e6399103188c21],
    [0xbd61016ef381cce6, 0x40c6482b44995b89],
    [0x3c326105c49e5a1a, 0xbfab44bd8b4e3138],
];

const Q_ASYMPT_LONG: [[u64; 2]; 14] = [
    [0x0000000000000000, 0x3ff0000000000000],
    [0xbcfc7b886ee61417, 0x405152838f711f3c],
    [0xbd33f933c14e831a, 0x409576cb78cab36e],
    [0x3d33fb09e2c4898a, 0x40c5e8a2c7602ced],
    [0x3d7be430c664bf7e, 0x40e766fdc8c7638c],
    [0x3dac662e74cdfc0e, 0x4100276b5f47b5f1],
    [0x3da67d06e82a8495, 0x410f843887f8a24a],
    [0x3dbbf2e22fc2550a, 0x4116d04271703e08],
    [0xbdb2fb3aed100853, 0x4119aff4ed32b74b],
    [0x3dba75e7b7171c3c, 0x4116b5eb8bf386bd],
    [0x3dab2d8b8c1937eb, 0x410f71c38e84cb34],
    [0xbda4e2e8a50b7370, 0x4100ca04b0f36b94],
    [0xbd86ed6df34fdaf9, 0x40e9151ded4cf4b7],
    [0x3d6938ea702c0328, 0x40c923ee1ab270c4],
];

// The first three coefficients of the inverse error function's Taylor series, as pairs: the root of pi over 2, and those that follow it.
const TAYLOR: [[u64; 2]; 3] = [
    [0xbc8618f13eb7ca89, 0x3fec5bf891b4ef6b],
    [0xbc33ea2ef8dde075, 0x3fcdb29fb2fee5e4],
    [0x3c2cec68daff0d80, 0x3fc053c2c0ab91c5],
];

// The pair whose bit patterns stand in a row.
fn pair(row: [u64; 2]) -> DoubleDouble
    requires { PlainRow row }
    ensures { result ≡ pair_of row }
{
    DoubleDouble::from_bit_pair(BitPair {
        lo: row[0],
        hi: row[1],
    })
}

// z × c1 + c0.
fn two_terms(z: DoubleDouble, c1: [u64; 2], c0: [u64; 2]) -> DoubleDouble
    requires { PlainRow c1 × PlainRow c0 }
    ensures { result ≡ mul_add z (pair_of c1) (pair_of c0) }
{
    DoubleDouble::mul_add(z, pair(c1), pair(c0))
}

// c1 × z + c0, which may differ from `two_terms` in the last bits.
fn two_terms_turned(c1: [u64; 2], z: DoubleDouble, c0: [u64; 2]) -> DoubleDouble
    requires { PlainRow c1 × PlainRow c0 }
    ensures { result ≡ mul_add (pair_of c1) z (pair_of c0) }
{
    DoubleDouble::mul_add(pair(c1), z, pair(c0))
}

// Numerator and denominator have a function each, whose rows are literal: one function over the rows as a parameter, for both, was proved and
// measured, and it took longer: 146 ns for 126 in the middle, 200 for 118 in the shorter asymptotic rational, 180 for 148 in the longer.
fn mid_num(z: DoubleDouble, z2: DoubleDouble, z4: DoubleDouble, z8: DoubleDouble) -> DoubleDouble
    ensures { result ≡ paired10 p0p06_to0p75 z z2 z4 z8 }
{
    let p = P_0P06_TO_0P75;
    let p0 = two_terms(z, p[1], p[0]);
    let p1 = two_terms(z, p[3], p[2]);
    let p2 = two_terms(z, p[5], p[4]);
    let p3 = two_terms(z, p[7], p[6]);
    let p4 = two_terms(z, p[9], p[8]);
    let q0 = DoubleDouble::mul_add(z2, p1, p0);
    let q1 = DoubleDouble::mul_add(z2, p3, p2);
    let r0 = DoubleDouble::mul_add(z4, q1, q0);
    DoubleDouble::mul_add(z8, p4, r0)
}

fn mid_den(z: DoubleDouble, z2: DoubleDouble, z4: DoubleDouble, z8: DoubleDouble) -> DoubleDouble
    ensures { result ≡ paired10 q0p06_to0p75 z z2 z4 z8 }
{
    let q = Q_0P06_TO_0P75;
    let p0 = two_terms(z, q[1], q[0]);
    let p1 = two_terms(z, q[3], q[2]);
    let p2 = two_terms(z, q[5], q[4]);
    let p3 = two_terms(z, q[7], q[6]);
    let p4 = two_terms(z, q[9], q[8]);
    let q0 = DoubleDouble::mul_add(z2, p1, p0);
    let q1 = DoubleDouble::mul_add(z2, p3, p2);
    let r0 = DoubleDouble::mul_add(z4, q1, q0);
    DoubleDouble::mul_add(z8, p4, r0)
}

fn small_num(z: DoubleDouble, z2: DoubleDouble, z4: DoubleDouble, z8: DoubleDouble) -> DoubleDouble
    ensures { result ≡ paired11 p_asympt_small (mul_add (at p_asympt_small 1) z (at p_asympt_small 0)) z z2 z4 z8 }
{
    let p = P_ASYMPT_SMALL;
    let q0 = two_terms_turned(p[1], z, p[0]);
    let q1 = two_terms_turned(p[3], z, p[2]);
    let q2 = two_terms_turned(p[5], z, p[4]);
    let q3 = two_terms_turned(p[7], z, p[6]);
    let q4 = two_terms_turned(p[9], z, p[8]);
    let r0 = DoubleDouble::mul_add(z2, q1, q0);
    let r1 = DoubleDouble::mul_add(z2, q3, q2);
    let s0 = DoubleDouble::mul_add(z4, r1, r0);
    let s1 = DoubleDouble::mul_add(z2, pair(p[10]), q4);
    DoubleDouble::mul_add(z8, s1, s0)
}

fn small_den(z: DoubleDouble, z2: DoubleDouble, z4: DoubleDouble, z8: DoubleDouble) -> DoubleDouble
    ensures { result ≡ paired11 q_asympt_small (mul_add_f64 (at q_asympt_small 1) z one) z z2 z4 z8 }
{
    let q = Q_ASYMPT_SMALL;
    let q0 = DoubleDouble::mul_add_f64(pair(q[1]), z, 1.0);
    let q1 = two_terms_turned(q[3], z, q[2]);
    let q2 = two_terms_turned(q[5], z, q[4]);
    let q3 = two_terms_turned(q[7], z, q[6]);
    let q4 = two_terms_turned(q[9], z, q[8]);
    let r0 = DoubleDouble::mul_add(z2, q1, q0);
    let r1 = DoubleDouble::mul_add(z2, q3, q2);
    let s0 = DoubleDouble::mul_add(z4, r1, r0);
    let s1 = DoubleDouble::mul_add(z2, pair(q[10]), q4);
    DoubleDouble::mul_add(z8, s1, s0)
}

fn long_num(z: DoubleDouble, z2: DoubleDouble, z4: DoubleDouble, z8: DoubleDouble) -> DoubleDouble
    ensures { result ≡ paired14 p_asympt_long z z2 z4 z8 }
{
    let p = P_ASYMPT_LONG;
    let g0 = two_terms(z, p[1], p[0]);
    let g1 = two_terms(z, p[3], p[2]);
    let g2 = two_terms(z, p[5], p[4]);
    let g3 = two_terms(z, p[7], p[6]);
    let g4 = two_terms(z, p[9], p[8]);
    let g5 = two_terms(z, p[11], p[10]);
    let g6 = two_terms(z, p[13], p[12]);
    let h0 = DoubleDouble::mul_add(z2, g1, g0);
    let h1 = DoubleDouble::mul_add(z2, g3, g2);
    let h2 = DoubleDouble::mul_add(z2, g5, g4);
    let q0 = DoubleDouble::mul_add(z4, h1, h0);
    let q1 = DoubleDouble::mul_add(z4, g6, h2);
    DoubleDouble::mul_add(z8, q1, q0)
}

fn long_den(z: DoubleDouble, z2: DoubleDouble, z4: DoubleDouble, z8: DoubleDouble) -> DoubleDouble
    ensures { result ≡ paired14 q_asympt_long z z2 z4 z8 }
{
    let q = Q_ASYMPT_LONG;
    let g0 = two_terms(z, q[1], q[0]);
    let g1 = two_terms(z, q[3], q[2]);
    let g2 = two_terms(z, q[5], q[4]);
    let g3 = two_terms(z, q[7], q[6]);
    let g4 = two_terms(z, q[9], q[8]);
    let g5 = two_terms(z, q[11], q[10]);
    let g6 = two_terms(z, q[13], q[12]);
    let h0 = DoubleDouble::mul_add(z2, g1, g0);
    let h1 = DoubleDouble::mul_add(z2, g3, g2);
    let h2 = DoubleDouble::mul_add(z2, g5, g4);
    let q0 = DoubleDouble::mul_add(z4, h1, h0);
    let q1 = DoubleDouble::mul_add(z4, g6, h2);
    DoubleDouble::mul_add(z8, q1, q0)
}

// x² - 0.5625
fn centred(x: DoubleDouble) -> DoubleDouble
    ensures { result ≡ centred_of x }
{
    let x2 = DoubleDouble::quick_mult(x, x);
    DoubleDouble::full_add_f64(x2, -0.5625)
}

pub(crate) fn inverf_0p06_to_0p75(x: DoubleDouble) -> DoubleDouble
    ensures { result ≡ inverf0p06_to0p75 x }
{
    let vz = centred(x);
    let vx2 = vz * vz;
    let vx4 = vx2 * vx2;
    let vx8 = vx4 * vx4;
    let num = mid_num(vz, vx2, vx4, vx8);
    let den = mid_den(vz, vx2, vx4, vx8);
    let r = DoubleDouble::div(num, den);
    DoubleDouble::quick_mult(r, x)
}

// The asymptotic rationals are called from both branches, as in the Rust: with one caller they would be inlined and vectorised,
// which takes longer (docs/DECISIONS.md 12).
pub(crate) fn inverf_asympt_small(z: DoubleDouble, zeta_sqrt: DoubleDouble) -> DoubleDouble
    ensures { result ≡ inverf_asympt_small z zeta_sqrt }
{
    let z2 = DoubleDouble::quick_mult(z, z);
    let z4 = DoubleDouble::quick_mult(z2, z2);
    let z8 = DoubleDouble::quick_mult(z4, z4);
    let num = small_num(z, z2, z4, z8);
    let den = small_den(z, z2, z4, z8);
    let r = DoubleDouble::div(num, den);
    DoubleDouble::quick_mult(r, zeta_sqrt)
}

pub(crate) fn inverf_asympt_long(z: DoubleDouble, zeta_sqrt: DoubleDouble) -> DoubleDouble
    ensures { result ≡ inverf_asympt_long z zeta_sqrt }
{
    let z2 = z * z;
    let z4 = z2 * z2;
    let z8 = z4 * z4;
    let num = long_num(z, z2, z4, z8);
    let den = long_den(z, z2, z4, z8);
    let r = DoubleDouble::div(num, den);
    DoubleDouble::quick_mult(r, zeta_sqrt)
}

// Up to 0.0095.
fn taylor4(x: DoubleDouble) -> DoubleDouble
    ensures { result ≡ taylor4_of x }
{
    let z2 = DoubleDouble::quick_mult(x, x);
    let p = common::f_fmla(
        z2.hi,
        f64::from_bits(0x3fb62847c47dda48),
        f64::from_bits(0x3fc053c2c0ab91c5),
    );
    let r1 = DoubleDouble::mul_f64_add(z2, p, pair(TAYLOR[1]));
    let r0 = DoubleDouble::mul_add(z2, r1, pair(TAYLOR[0]));
    DoubleDouble::quick_mult(r0, x)
}

// Up to 0.06.
fn taylor7(x: DoubleDouble) -> DoubleDouble
    ensures { result ≡ taylor7_of x }
{
    let z2 = DoubleDouble::quick_mult(x, x);
    let p = polyeval::f_polyeval4(
        z2.hi,
        f64::from_bits(0x3fb62847c47dda48),
        f64::from_bits(0x3fb0a13189c6ef7a),
        f64::from_bits(0x3faa7c85c89bb08b),
        f64::from_bits(0x3fa5eeb1d488e312),
    );
    let r2 = DoubleDouble::mul_f64_add(z2, p, pair(TAYLOR[2]));
    let r1 = DoubleDouble::mul_add(z2, r2, pair(TAYLOR[1]));
    let r0 = DoubleDouble::mul_add(z2, r1, pair(TAYLOR[0]));
    DoubleDouble::quick_mult(r0, x)
}

// By Horner's rule, the upper five coefficients by their high parts alone. Both lists of the quicker rational are handed to this one function:
// with two callers it is not inlined, and not vectorised, which takes longer (docs/DECISIONS.md 12).
fn horner(vz: DoubleDouble, c: [[u64; 2]; 10]) -> DoubleDouble
    requires { PlainRows10 c }
    ensures { result ≡ horner10 (pairs_of10 c) vz }
{
    let ps = polyeval::f_polyeval5(
        vz.hi,
        f64::from_bits(c[5][1]),
        f64::from_bits(c[6][1]),
        f64::from_bits(c[7][1]),
        f64::from_bits(c[8][1]),
        f64::from_bits(c[9][1]),
    );
    let c4 = pair(c[4]);
    let c3 = pair(c[3]);
    let c2 = pair(c[2]);
    let c1 = pair(c[1]);
    let c0 = pair(c[0]);
    let n4 = DoubleDouble::mul_f64_add(vz, ps, c4);
    let n3 = DoubleDouble::mul_add(vz, n4, c3);
    let n2 = DoubleDouble::mul_add(vz, n3, c2);
    let n1 = DoubleDouble::mul_add(vz, n2, c1);
    DoubleDouble::mul_add(vz, n1, c0)
}

// The quicker rational from 0.06 to 0.75.
fn quick_rational(x: DoubleDouble) -> DoubleDouble
    ensures { result ≡ quick_rational x }
{
    let vz = centred(x);
    let num = horner(vz, P_0P06_TO_0P75);
    let den = horner(vz, Q_0P06_TO_0P75);
    let r = DoubleDouble::div(num, den);
    DoubleDouble::quick_mult(r, x)
}

// Ziv's rounding test: whether k rounds to one double with any error within the quicker rational's bound.
fn rounds_alike(k: DoubleDouble) -> bool
    ensures { result ≡ rounds_alike k }
{
    let err = common::f_fmla(
        k.hi,
        f64::from_bits(0x3c70000000000000),
        f64::from_bits(0x3c40000000000000),
    );
    let ub = k.hi + (k.lo + err);
    let lb = k.hi + (k.lo - err);
    ub == lb
}

// From 0.06 to 0.75.
fn middle(x: DoubleDouble) -> DoubleDouble
    ensures { result ≡ middle_of x }
{
    let k = quick_rational(x);
    if rounds_alike(k) {
        return k;
    }
    inverf_0p06_to_0p75(x)
}

// The root of zeta, which is a logarithm with the other sign.
fn zeta_sqrt(log: DoubleDouble) -> DoubleDouble
    ensures { result ≡ zeta_sqrt log }
{
    let zeta = -DoubleDouble::from_exact_add(log.hi, log.lo);
    zeta.fast_sqrt()
}

// Above 0.75: the logarithm's argument is positive and finite.
fn tail(x: DoubleDouble) -> DoubleDouble
    requires one_value { lt x.hi one ≡ true }
    requires three_quarters_value { le x.hi three_quarters ≡ false }
    ensures { result ≡ tail_of x }
{
    let q = DoubleDouble::full_add_f64(-x, 1.0);
    let root = zeta_sqrt(fast_log_dd::fast_log_dd(q));
    let rz = root.recip();
    if x.hi < 0.9999 {
        return inverf_asympt_small(rz, root);
    }
    inverf_asympt_long(rz, root)
}

pub(crate) fn erf_core(x: DoubleDouble) -> DoubleDouble
    requires { lt x.hi one ≡ true }
    ensures { result ≡ erf_core x }
{
    let h = x.hi;
    if h <= 0.0095 {
        return taylor4(x);
    }
    if h <= 0.06 {
        return taylor7(x);
    }
    if h <= 0.75 {
        return middle(x);
    }
    tail(x)
}

// The same of a pair's two doubles, made one double. Both inverse functions call it, so that it stays a function; pairs handed over in memory
// would take longer (docs/DECISIONS.md 12).
pub(crate) fn erf_core_of(lo: f64, hi: f64) -> f64
    requires { lt hi one ≡ true }
    ensures { result ≡ to_f64 (erf_core (new_of lo hi)) }
{
    erf_core(DoubleDouble::new(lo, hi)).to_f64()
}

// Below 0.1.
fn inverfc_extra_small(x: f64) -> DoubleDouble
    requires x_nonzero { 0 < to_bits binary64 x }
    requires x_bound { to_bits binary64 x < 0x7ff0_0000_0000_0000 }
    ensures { result ≡ inverfc_extra_small x }
{
    let root = zeta_sqrt(fast_log_dd::fast_log_d_to_dd(x));
    let rz = root.recip();
    if x >= 0.0001 {
        return inverf_asympt_small(rz, root);
    }
    inverf_asympt_long(rz, root)
}

// x itself, or 2 - x above 1.
fn mirrored(x: f64) -> DoubleDouble
    ensures { result ≡ mirrored_of x }
{
    if x > 1.0 {
        return DoubleDouble::from_full_exact_sub(2.0, x);
    }
    DoubleDouble::new(0.0, x)
}

fn sign(x: f64) -> f64
    ensures { result ≡ sign_of x }
{
    if x > 1.0 {
        return -1.0;
    }
    1.0
}

// What erf_core is given: 1 less `mirrored`.
fn core_argument(x: f64) -> DoubleDouble
    ensures { result ≡ core_argument x }
{
    let d = mirrored(x);
    let dx = DoubleDouble::full_add_f64(-d, 1.0);
    DoubleDouble::from_exact_add(dx.hi, dx.lo)
}

// From 0.1 up to 2, but for 1.
fn central(x: f64) -> f64
    requires x_bound { to_bits binary64 x < 0x4000_0000_0000_0000 }
    requires one_value { eq x one ≡ false }
    requires tenth_value { lt x tenth ≡ false }
    ensures { result ≡ central_of x }
{
    let dx = core_argument(x);
    let lo = dx.lo;
    let hi = dx.hi;
    let r = erf_core_of(lo, hi);
    r * sign(x)
}

// The quantile of every double. A NaN has no bits of its own to look at, so it is told apart first.
pub fn f_erfcinv(x: f64) -> f64
    ensures { result ≡ f_erfcinv x }
{
    if x.is_nan() {
        return f64::NAN;
    }
    let ix = x.to_bits();
    if ix.wrapping_add(ix) == 0 {
        return f64::INFINITY;
    }
    if ix == 0x4000000000000000 {
        return f64::NEG_INFINITY;
    }
    if ix >= 0x4000000000000000 {
        return f64::NAN;
    }
    if x == 1.0 {
        return 0.0;
    }
    if x < 0.1 {
        return inverfc_extra_small(x).to_f64();
    }
    central(x)
}

// The quantile over bit patterns, all of them.
pub fn f_erfcinv_bits(b: u64) -> u64
    ensures { result ≡ f_erfcinv_bits b }
{
    let x = double_bits::of_bits(b);
    double_bits::bits_of(f_erfcinv(x))
}
