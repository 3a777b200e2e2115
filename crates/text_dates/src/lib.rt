// Dates: the date of a day as a record holds it, by the Gregorian rule, and its text YYYY-MM-DD.
// Every u16 is a day, so nothing is declined.
#![tactic(auto)]

mod date;
mod iso;

pub use date::{Date, date_of};
pub use iso::{iso_of, put_date};
