// Numbers as text: hexadecimal and decimal digits written, hexadecimal digits read,
// bytes put into a lent line, and two texts compared. No public function has a `requires`.
#![tactic(auto)]

mod compare;
mod digit;
mod read;
mod text;
mod write;

pub use compare::same;
pub use digit::digit_of;
pub use read::{HexError, read_hex};
pub use text::{put, put_decimal};
pub use write::{Decimal, decimal_into, decimal_of, hex_into, hex_of};
