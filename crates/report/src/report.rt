// A coded report: a station, a month, and the fields of four sections. One exists only with lawful fields.
ghost use Rattle.std.specs.Prelude.{◌≡◌, ◌≤◌, true};
ghost use Rattle.station.specs.Months.{days_of};
ghost use Rattle.report.specs.Lawful.{is_lawful};

use layout::field::Field;
use station::calendar::CalendarMonth;

#[derive(Clone, Copy)]
pub struct Report {
    pub(crate) station: u32,
    pub(crate) calendar: CalendarMonth,
    pub(crate) first: [Field<u32>; 19],
    pub(crate) second: [Field<u32>; 18],
    pub(crate) third: [Field<u32>; 22],
    pub(crate) fourth: [Field<u32>; 15],
    ghost station_from: { 1000 ≤ station },
    ghost station_to: { station ≤ 98999 },
    ghost lawful: { is_lawful (days_of calendar) first second third fourth ≡ true },
}

impl Report {
    pub fn station(&self) -> u32
        ensures { result ≡ self.now.station }
    {
        self.station
    }

    pub fn calendar(&self) -> CalendarMonth
        ensures { result ≡ self.now.calendar }
    {
        self.calendar
    }
}
