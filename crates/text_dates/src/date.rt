// The date of a day: whole years are counted off, then whole months, and what is left is days of the month.
// Day 0 is 1 January 2000.
ghost use Rattle.std.specs.Prelude.{◌≡◌, ◌^◌, ◌≤◌, ◌<◌};
ghost use Rattle.text_dates.specs.Calendar.{is_leap, is_short, year_days, month_days, month_after, dated, days_after, date_of};

// A year, a month of it, 1 to 12, and a day of that month, from 1.
#[derive(Clone, Copy)]
pub struct Date {
    pub year: u64,
    pub month: u64,
    pub day: u64,
}

// The date of a day.
#[tactic(auto, using(crate::proofs::Passing::year_has, crate::proofs::Loops::years_start, crate::proofs::Loops::years_turn))]
pub fn date_of(day: u16) -> Date
    ensures { result ≡ date_of day }
{
    let mut year: u64 = 2000;
    let mut left = u64::from(day);
    while left >= year_days(year) {
        left -= year_days(year);
        year += 1;
    }
    in_month(year, left)
}

// The date so many days after the first of a year, where whole months are counted off.
#[tactic(auto, using(crate::proofs::Passing::month_has, crate::proofs::Loops::months_start, crate::proofs::Loops::months_turn, crate::proofs::Loops::months_end))]
fn in_month(year: u64, count: u64) -> Date
    requires { (year < 65536) × (count < 65536) }
    ensures { result ≡ days_after count (dated year 1 1) }
{
    let mut first = Date {
        year,
        month: 1,
        day: 1,
    };
    let mut left = count;
    while left >= first.month_days() {
        left -= first.month_days();
        first = first.month_after();
    }
    Date {
        day: left + 1,
        ..first
    }
}

impl Date {
    // The first day of the month after this one's.
    #[tactic(auto, unfolding(crate::specs::Calendar::month_after))]
    fn month_after(self) -> Date
        requires { (self.year < 2 ^ 32) × (self.month ≤ 12) }
        ensures { result ≡ month_after self.year self.month }
    {
        if self.month < 12 {
            return Date {
                month: self.month + 1,
                day: 1,
                ..self
            };
        }
        Date {
            year: self.year + 1,
            month: 1,
            day: 1,
        }
    }

    // How many days this month has.
    #[tactic(auto, unfolding(crate::specs::Calendar::month_days))]
    fn month_days(self) -> u64
        ensures { result ≡ month_days self.year self.month }
    {
        match self.month {
            2 if is_leap(self.year) => 29,
            2 => 28,
            month if is_short(month) => 30,
            _ => 31,
        }
    }
}

// How many days a year has.
#[tactic(auto, unfolding(crate::specs::Calendar::year_days))]
fn year_days(year: u64) -> u64
    ensures { result ≡ year_days year }
{
    if is_leap(year) { 366 } else { 365 }
}

// Whether a month has 30 days.
#[tactic(auto, unfolding(crate::specs::Calendar::is_short))]
fn is_short(month: u64) -> bool
    ensures { result ≡ is_short month }
{
    matches!(month, 4 | 6 | 9 | 11)
}

// Whether a year is a leap year.
#[tactic(auto, unfolding(crate::specs::Calendar::is_leap))]
fn is_leap(year: u64) -> bool
    ensures { result ≡ is_leap year }
{
    year % 4 == 0 && (year % 100 != 0 || year % 400 == 0)
}
