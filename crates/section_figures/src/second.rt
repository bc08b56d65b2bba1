// The figures of the second section: the normals.
ghost use Rattle.std.specs.Prelude.{◌≡◌};
ghost use Rattle.layout.specs.Figures.{signed};
ghost use Rattle.section_figures.specs.Second.{pressure_number, rain_number, second_figures};

use layout::coding::Figure;
use layout::figure::{Pressure, Temperature};
use normals::checked::CheckedNormals;
use rounding::rain::rain_code;

fn temperature(tenths: i32) -> u32
    ensures { result ≡ signed tenths }
{
    Temperature { tenths }.code()
}

fn pressure(tenths: i32) -> u32
    ensures { result ≡ pressure_number tenths }
{
    let tenths = tenths.unsigned_abs();
    Pressure { tenths }.code()
}

fn rain(tenths: i32) -> u32
    ensures { result ≡ rain_number tenths }
{
    u32::from(rain_code(tenths.unsigned_abs()))
}

pub fn second_figures(checked: CheckedNormals) -> [Option<u32>; 18]
    ensures { result ≡ second_figures checked.normals }
{
    let normals = checked.normals();
    let missing = normals.missing;
    [
        Some(normals.first_year.unsigned_abs()),
        Some(normals.last_year.unsigned_abs()),
        normals.station_pressure.map(pressure),
        normals.sea_level_pressure.map(pressure),
        normals.mean_temperature.map(temperature),
        normals.deviation.map(i32::unsigned_abs),
        normals.highest_temperature.map(temperature),
        normals.lowest_temperature.map(temperature),
        normals.vapour_pressure.map(i32::unsigned_abs),
        normals.rain.map(rain),
        normals.rain_days.map(i32::unsigned_abs),
        normals.sunshine.map(i32::unsigned_abs),
        Some(missing.pressure.unsigned_abs()),
        Some(missing.temperature.unsigned_abs()),
        Some(missing.extremes.unsigned_abs()),
        Some(missing.vapour_pressure.unsigned_abs()),
        Some(missing.rain.unsigned_abs()),
        Some(missing.sunshine.unsigned_abs()),
    ]
}
