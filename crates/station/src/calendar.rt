// A month of a year.
ghost use Rattle.std.specs.Prelude.{◌≡◌, ◌≤◌, pos};
ghost use Rattle.station.specs.Refusals.{Answered};
ghost use Rattle.station.specs.Calendar.{is_year, is_month_number, is_leap, month_length, month_refusal};

use crate::refusal::Refusal;

const FIRST_YEAR: i32 = 1950;

const LAST_YEAR: i32 = 2949;

const MONTHS: i32 = 12;

const FEBRUARY: u8 = 2;

const LEAP_FEBRUARY: u8 = 29;

// The lengths of the months of a common year, from January.
const COMMON_LENGTHS: [u8; 12] = [31, 28, 31, 30, 31, 30, 31, 31, 30, 31, 30, 31];

// A checked year and month: one exists only within the limits.
#[derive(Clone, Copy)]
pub struct CalendarMonth {
    year: u16,
    month: u8,
    ghost year_from: { 1950 ≤ year },
    ghost year_to: { year ≤ 2949 },
    ghost month_from: { 1 ≤ month },
    ghost month_to: { month ≤ 12 },
}

impl CalendarMonth {
    pub fn check(year: i32, month: i32) -> Result<CalendarMonth, Refusal>
        ensures { Answered (month_refusal year month) result (λ m. (pos m.year ≡ year) × (pos m.month ≡ month)) }
    {
        if !is_year(year) || !is_month_number(month) {
            return Err(Refusal::Sheet);
        }
        Ok(CalendarMonth {
            year: year as u16,
            month: month as u8,
        })
    }

    pub fn year(self) -> u16
        ensures { result ≡ self.year }
    {
        self.year
    }

    pub fn month(self) -> u8
        ensures { result ≡ self.month }
    {
        self.month
    }

    // The number of days.
    pub fn length(self) -> u8
        ensures value { result ≡ month_length self.year self.month }
        ensures least { 28 ≤ result }
        ensures most { result ≤ 31 }
    {
        if self.month == FEBRUARY && is_leap(self.year) {
            return LEAP_FEBRUARY;
        }
        COMMON_LENGTHS[usize::from(self.month) - 1]
    }
}

pub fn is_year(number: i32) -> bool
    ensures { result ≡ is_year number }
{
    (FIRST_YEAR..=LAST_YEAR).contains(&number)
}

pub fn is_month_number(number: i32) -> bool
    ensures { result ≡ is_month_number number }
{
    (1..=MONTHS).contains(&number)
}

fn is_leap(year: u16) -> bool
    ensures { result ≡ is_leap year }
{
    year % 4 == 0 && (year % 100 != 0 || year % 400 == 0)
}
