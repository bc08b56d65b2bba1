// The station sheet: whose month it is, and how its wind is observed.
ghost use Rattle.std.specs.Prelude.{◌≡◌, ◌≤◌, pos, Some};
ghost use Rattle.station.specs.Refusals.{Answered};
ghost use Rattle.station.specs.Sheets.{is_station, sheet_refusal, indicator_number, sheet_text};

use crate::calendar::CalendarMonth;
use crate::refusal::Refusal;
use crate::wind::WindIndicator;
use std::fmt;

const FIRST_STATION: i32 = 1000;

const LAST_STATION: i32 = 98999;

// A checked sheet: one exists only within the limits.
#[derive(Clone, Copy)]
pub struct Sheet {
    station: u32,
    calendar: CalendarMonth,
    wind: WindIndicator,
    ghost station_from: { 1000 ≤ station },
    ghost station_to: { station ≤ 98999 },
}

impl Sheet {
    pub fn check(station: i32, year: i32, month: i32, iw: i32) -> Result<Sheet, Refusal>
        ensures { Answered (sheet_refusal station year month iw) result (λ s. (pos s.station ≡ station) × (pos s.calendar.year ≡ year) × (pos s.calendar.month ≡ month) × (pos (indicator_number s.wind) ≡ iw)) }
    {
        if !is_station(station) {
            return Err(Refusal::Sheet);
        }
        let calendar = CalendarMonth::check(year, month)?;
        let wind = WindIndicator::try_from(iw)?;
        Ok(Sheet {
            station: station as u32,
            calendar,
            wind,
        })
    }

    pub fn station(self) -> u32
        ensures { result ≡ self.station }
    {
        self.station
    }

    pub fn calendar(self) -> CalendarMonth
        ensures { result ≡ self.calendar }
    {
        self.calendar
    }

    pub fn wind(self) -> WindIndicator
        ensures { result ≡ self.wind }
    {
        self.wind
    }
}

pub fn is_station(number: i32) -> bool
    ensures { result ≡ is_station number }
{
    (FIRST_STATION..=LAST_STATION).contains(&number)
}

impl fmt::Display for Sheet {
    ghost output = { λ s. Some (sheet_text s.station s.calendar.year s.calendar.month (indicator_number s.wind)) };

    fn fmt<W: fmt::Write>(&self, f: &mut fmt::Formatter<W>) -> fmt::Result {
        let station = self.station;
        let year = self.calendar.year();
        let month = self.calendar.month();
        let iw = u8::from(self.wind);
        write!(f, "station {station:05} year {year} month {month} iw {iw}")
    }
}
