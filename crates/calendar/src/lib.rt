// Months and days as the ticket words number them (docs/RULES.md, "Months and days"): the Gregorian rule for a
// month's length, and the table of first days, which is that rule summed from January 2000 on.
#![tactic(auto)]

ghost use Rattle.std.specs.Prelude.{◌≡◌, ◌≤◌};
ghost use Rattle.calendar.specs.Gregorian.{leap, month_length, first_day, table_months, first_day_told, in_month};

mod table;

use table::{FIRST_DAYS, MONTHS};

// A day, counted from 1 January 2000, which is day 0.
#[derive(Clone, Copy, PartialEq, Eq, Debug)]
pub struct Day(pub u32);

// A month, counted from January 2000, which is month 0.
#[derive(Clone, Copy, PartialEq, Eq, Debug)]
pub struct Month(pub u32);

pub fn is_leap_year(year: u32) -> bool
    ensures value { result ≡ leap year }
{
    year % 4 == 0 && (year % 100 != 0 || year % 400 == 0)
}

// The table is the rule summed: each entry is the one before it and that month's days.
fn entry(month: u32) -> u32
    requires { month ≤ table_months }
    ensures value { result ≡ first_day month }
{
    FIRST_DAYS[month as usize]
}

impl Month {
    // The days of the month, by the rule alone: past the table too.
    pub fn length(self) -> u32
        ensures value { result ≡ month_length self.0 }
    {
        match self.0 % 12 {
            1 => {
                if is_leap_year(2000 + self.0 / 12) {
                    29
                } else {
                    28
                }
            }
            3 | 5 | 8 | 10 => 30,
            _ => 31,
        }
    }

    // The month's first day; of the month after the table's last, the day on which the table ends; past that, none.
    pub fn first_day(self) -> Option<Day>
        ensures value { result ≡ first_day_told self.0 }
    {
        if self.0 <= MONTHS {
            Some(Day(entry(self.0)))
        } else {
            None
        }
    }

    // Whether the day lies in the month; a month past the table holds no day.
    pub fn holds(self, day: Day) -> bool
        ensures value { result ≡ in_month self.0 day.0 }
    {
        self.0 < MONTHS
            && self.first_day().is_some_and(|first| first.0 <= day.0
                && day.0 - first.0 < self.length())
    }
}
