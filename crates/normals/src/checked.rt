// Normals that were checked.
ghost use Rattle.std.specs.Prelude.{◌≡◌, true, pos};
ghost use Rattle.station.specs.Numbers.{within};
ghost use Rattle.station.specs.Refusals.{Answered};
ghost use Rattle.normals.specs.Normals.{is_two_digits, is_three_digits, is_pressure, is_temperature, is_rain, is_sunshine, missing_good, period_good, pressures_good, temperatures_good, weather_good, is_good, normals_refusal, blank_normals};

use crate::record::{Normals, YearsMissing};
use station::refusal::Refusal;

// Checked normals: a value exists only where every number is good.
#[derive(Clone, Copy)]
pub struct CheckedNormals {
    normals: Normals,
    ghost good: { is_good normals ≡ true },
}

impl CheckedNormals {
    pub fn check(normals: Normals) -> Result<CheckedNormals, Refusal>
        ensures { Answered (normals_refusal normals) result (λ k. k.normals ≡ normals) }
    {
        if is_good(normals) {
            Ok(CheckedNormals { normals })
        } else {
            Err(Refusal::Normal)
        }
    }

    // Normals that give nothing.
    pub fn blank() -> CheckedNormals
        ensures { result.normals ≡ blank_normals }
    {
        CheckedNormals {
            normals: Normals::default(),
        }
    }

    pub fn normals(self) -> Normals
        ensures { result ≡ self.normals }
    {
        self.normals
    }
}

#[tactic(auto, unfolding(crate::specs::Normals::is_good))]
fn is_good(normals: Normals) -> bool
    ensures { result ≡ is_good normals }
{
    is_period_good(normals)
        && are_pressures_good(normals)
        && are_temperatures_good(normals)
        && is_weather_good(normals)
        && is_missing_good(normals.missing)
}

#[tactic(auto, unfolding(crate::specs::Normals::period_good))]
fn is_period_good(normals: Normals) -> bool
    ensures { result ≡ period_good normals }
{
    is_two_digits(normals.first_year) && is_two_digits(normals.last_year) && is_print(normals.print)
}

#[tactic(auto, unfolding(crate::specs::Normals::pressures_good))]
fn are_pressures_good(normals: Normals) -> bool
    ensures { result ≡ pressures_good normals }
{
    is_pressure(normals.station_pressure)
        && is_pressure(normals.sea_level_pressure)
        && is_three_digits(normals.vapour_pressure)
}

#[tactic(auto, unfolding(crate::specs::Normals::temperatures_good))]
fn are_temperatures_good(normals: Normals) -> bool
    ensures { result ≡ temperatures_good normals }
{
    is_temperature(normals.mean_temperature)
        && is_temperature(normals.highest_temperature)
        && is_temperature(normals.lowest_temperature)
        && is_three_digits(normals.deviation)
}

#[tactic(auto, unfolding(crate::specs::Normals::weather_good))]
fn is_weather_good(normals: Normals) -> bool
    ensures { result ≡ weather_good normals }
{
    is_rain(normals.rain, normals.rain_days) && is_sunshine(normals.sunshine)
}

#[tactic(auto, unfolding(crate::specs::Normals::missing_good))]
fn is_missing_good(missing: YearsMissing) -> bool
    ensures { result ≡ missing_good missing }
{
    is_two_digits(missing.pressure)
        && is_two_digits(missing.temperature)
        && is_two_digits(missing.extremes)
        && is_two_digits(missing.vapour_pressure)
        && is_two_digits(missing.rain)
        && is_two_digits(missing.sunshine)
}

// A year of its century, or years missing.
#[tactic(auto, unfolding(crate::specs::Normals::is_two_digits))]
fn is_two_digits(number: i32) -> bool
    ensures { result ≡ is_two_digits number }
{
    (0..=99).contains(&number)
}

// 1: printed, 0: not.
fn is_print(number: i32) -> bool
    ensures { result ≡ within (pos 0) (pos 1) number }
{
    (0..=1).contains(&number)
}

// A deviation or a vapour pressure.
fn is_three_digits(number: Option<i32>) -> bool
    ensures { result ≡ is_three_digits number }
{
    number.is_none_or(|given| (0..=999).contains(&given))
}

// In 0.1 hPa.
fn is_pressure(number: Option<i32>) -> bool
    ensures { result ≡ is_pressure number }
{
    number.is_none_or(|given| (1000..=10999).contains(&given))
}

// In 0.1 °C.
fn is_temperature(number: Option<i32>) -> bool
    ensures { result ≡ is_temperature number }
{
    number.is_none_or(|given| (-999..=999).contains(&given))
}

// The rain in 0.1 mm. Where it is given as 0, the days with rain have to be given as 0 too.
fn is_rain(rain: Option<i32>, days: Option<i32>) -> bool
    ensures { result ≡ is_rain rain days }
{
    rain.is_none_or(|given| (0..=309969).contains(&given))
        && days.is_none_or(|given| (0..=31).contains(&given))
        && (rain != Some(0) || days == Some(0))
}

// In hours.
fn is_sunshine(number: Option<i32>) -> bool
    ensures { result ≡ is_sunshine number }
{
    number.is_none_or(|given| (0..=744).contains(&given))
}
