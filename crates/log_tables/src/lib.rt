// The logarithms' two tables, 182 rows of bit patterns: POW_INVERSE of the Rust's src/pow_tables.rs, a reciprocal, beside
// FAST_LOG_DD_INV of its src/logs/fast_log_dd.rs, that reciprocal's logarithm with the other sign. The rule of the entries is pxfm's.
#![tactic(auto)]

ghost use Rattle.log_tables.specs.Rows.{RowAt};

use crate::fast_log_dd::{fast_log_dd_inv_hi, fast_log_dd_inv_lo};
use crate::pow_tables::pow_inverse;

mod fast_log_dd;
mod pow_tables;
mod rows;

// The reciprocal, and the low part and the high part of its logarithm.
#[derive(Clone, Copy)]
pub struct Row(pub u64, pub u64, pub u64);

// The entries of both tables at a place, 0 past their ends.
pub fn row_at(i: usize) -> Row
    ensures { RowAt i result }
{
    Row(pow_inverse(i), fast_log_dd_inv_lo(i), fast_log_dd_inv_hi(i))
}
