// A station and a month of the year, by which normals are filed.
ghost use Rattle.std.specs.Prelude.{◌≡◌, ◌≤◌, pos};
ghost use Rattle.station.specs.Refusals.{Answered};
ghost use Rattle.station.specs.Sheets.{first_station};
ghost use Rattle.normals.specs.Keys.{key_refusal};

use station::calendar::is_month_number;
use station::refusal::Refusal;
use station::sheet::is_station;

const FIRST_STATION: u32 = 1000;

// A checked key: one exists only within the limits. Keys go by station, then month.
#[derive(Clone, Copy, PartialEq, Eq, PartialOrd, Ord)]
pub struct StationMonth {
    station: u32,
    month: u8,
    ghost station_from: { 1000 ≤ station },
    ghost station_to: { station ≤ 98999 },
    ghost month_from: { 1 ≤ month },
    ghost month_to: { month ≤ 12 },
}

impl StationMonth {
    pub fn check(station: i32, month: i32) -> Result<StationMonth, Refusal>
        ensures { Answered (key_refusal station month) result (λ k. (pos k.station ≡ station) × (pos k.month ≡ month)) }
    {
        if !is_station(station) || !is_month_number(month) {
            return Err(Refusal::Sheet);
        }
        Ok(StationMonth {
            station: station as u32,
            month: month as u8,
        })
    }

    // The lowest key.
    pub fn first() -> StationMonth
        ensures { (result.station ≡ first_station) × (result.month ≡ 1) }
    {
        StationMonth {
            station: FIRST_STATION,
            month: 1,
        }
    }

    pub fn station(self) -> u32
        ensures { result ≡ self.station }
    {
        self.station
    }

    pub fn month(self) -> u8
        ensures { result ≡ self.month }
    {
        self.month
    }
}
