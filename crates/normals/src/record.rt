// The climate normals of a station and month as they are handed in: numbers that nobody has checked.

// Of how many years of the period the observations are missing.
#[derive(Clone, Copy, Default)]
pub struct YearsMissing {
    pub pressure: i32,
    pub temperature: i32,
    pub extremes: i32,
    pub vapour_pressure: i32,
    pub rain: i32,
    pub sunshine: i32,
}

#[derive(Clone, Copy, Default)]
pub struct Normals {
    // the last two digits of the period's first and last year
    pub first_year: i32,
    pub last_year: i32,
    // in 0.1 hPa
    pub station_pressure: Option<i32>,
    pub sea_level_pressure: Option<i32>,
    // in 0.1 °C
    pub mean_temperature: Option<i32>,
    pub highest_temperature: Option<i32>,
    pub lowest_temperature: Option<i32>,
    // the standard deviation of the mean temperature, in 0.1 °C
    pub deviation: Option<i32>,
    // in 0.1 hPa
    pub vapour_pressure: Option<i32>,
    // in 0.1 mm
    pub rain: Option<i32>,
    pub rain_days: Option<i32>,
    // in hours
    pub sunshine: Option<i32>,
    pub missing: YearsMissing,
    // 1: printed in the report, 0: not
    pub print: i32,
}
