// The commands day and date: the day of a date, as a record holds it, and the date of a day.
// Crate text_dates has the dates; a date's day is worked out and then compared with the date of that day.
#![tactic(auto)]

mod day;
mod input;
mod output;

pub use day::{DayError, day_of, tell_day};
pub use input::day_or_date;
pub use output::date;
