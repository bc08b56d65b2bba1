// The twelve elements that a station observes each day.
ghost use Rattle.std.specs.Prelude.{◌≡◌};
ghost use Rattle.station.specs.declared.refusal.Refusal.TheVariants.{Element as NoElement};
ghost use Rattle.station.specs.Refusals.{BearerOf};
ghost use Rattle.station.specs.Elements.{element_number, element_numbered, unit_of, lowest_of, highest_of, takes, symbol_of};

use crate::refusal::Refusal;

#[derive(Clone, Copy, PartialEq, Eq, Debug)]
pub enum Element {
    StationPressure = 1,
    SeaLevelPressure = 2,
    MeanTemperature = 3,
    HighestTemperature = 4,
    LowestTemperature = 5,
    VapourPressure = 6,
    Rain = 7,
    Sunshine = 8,
    SnowDepth = 9,
    Wind = 10,
    Visibility = 11,
    Weather = 12,
}

// What one step of an element's value stands for.
#[derive(Clone, Copy)]
pub enum Unit {
    TenthHectopascal,
    TenthDegreeCelsius,
    TenthMillimetre,
    TenthHour,
    Centimetre,
    TenthMetrePerSecond,
    TenMetres,
    // 0 neither, 1 thunder, 2 hail, 3 both
    WeatherCode,
}

// The highest number of an element.
const LAST: i32 = 12;

impl Element {
    // Every element, in order of number.
    pub const ALL: [Element; 12] = [
        Element::StationPressure,
        Element::SeaLevelPressure,
        Element::MeanTemperature,
        Element::HighestTemperature,
        Element::LowestTemperature,
        Element::VapourPressure,
        Element::Rain,
        Element::Sunshine,
        Element::SnowDepth,
        Element::Wind,
        Element::Visibility,
        Element::Weather,
    ];

    pub fn unit(self) -> Unit
        ensures { result ≡ unit_of self }
    {
        match self {
            Element::StationPressure => Unit::TenthHectopascal,
            Element::SeaLevelPressure => Unit::TenthHectopascal,
            Element::MeanTemperature => Unit::TenthDegreeCelsius,
            Element::HighestTemperature => Unit::TenthDegreeCelsius,
            Element::LowestTemperature => Unit::TenthDegreeCelsius,
            Element::VapourPressure => Unit::TenthHectopascal,
            Element::Rain => Unit::TenthMillimetre,
            Element::Sunshine => Unit::TenthHour,
            Element::SnowDepth => Unit::Centimetre,
            Element::Wind => Unit::TenthMetrePerSecond,
            Element::Visibility => Unit::TenMetres,
            Element::Weather => Unit::WeatherCode,
        }
    }

    pub fn lowest(self) -> i32
        ensures { result ≡ lowest_of self }
    {
        match self {
            Element::StationPressure => 4000,
            Element::SeaLevelPressure => 8500,
            Element::MeanTemperature => -900,
            Element::HighestTemperature => -900,
            Element::LowestTemperature => -900,
            _ => 0,
        }
    }

    pub fn highest(self) -> i32
        ensures { result ≡ highest_of self }
    {
        match self {
            Element::StationPressure => 10999,
            Element::SeaLevelPressure => 10999,
            Element::MeanTemperature => 600,
            Element::HighestTemperature => 600,
            Element::LowestTemperature => 600,
            Element::VapourPressure => 999,
            Element::Rain => 9999,
            Element::Sunshine => 240,
            Element::SnowDepth => 999,
            Element::Wind => 999,
            Element::Visibility => 9999,
            Element::Weather => 3,
        }
    }

    // Whether a value lies in the element's range.
    pub fn takes(self, value: i32) -> bool
        ensures { result ≡ takes self value }
    {
        (self.lowest()..=self.highest()).contains(&value)
    }

    // The letters by which tables and messages name the element.
    pub fn symbol(self) -> &'static str
        ensures { result.now ≡ symbol_of self }
    {
        match self {
            Element::StationPressure => "P0",
            Element::SeaLevelPressure => "P",
            Element::MeanTemperature => "T",
            Element::HighestTemperature => "TX",
            Element::LowestTemperature => "TN",
            Element::VapourPressure => "E",
            Element::Rain => "R",
            Element::Sunshine => "S",
            Element::SnowDepth => "SN",
            Element::Wind => "F",
            Element::Visibility => "V",
            Element::Weather => "W",
        }
    }
}

// The number by which calls and files name an element.
impl From<Element> for u8 {
    ghost from_gives = { λ x n. n ≡ element_number x };

    fn from(element: Element) -> u8 {
        element as u8
    }
}

// The element with a number.
impl TryFrom<i32> for Element {
    type Error = Refusal;

    ghost try_from_gives = { λ n r. BearerOf element_number n (element_numbered n) NoElement r };

    fn try_from(number: i32) -> Result<Element, Refusal> {
        if !(1..=LAST).contains(&number) {
            return Err(Refusal::Element);
        }
        Ok(Element::ALL[(number - 1) as usize])
    }
}
