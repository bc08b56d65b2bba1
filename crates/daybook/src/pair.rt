// A pair of a day and an element.
ghost use Rattle.std.specs.Prelude.{◌≡◌, ◌<◌, ◌≤◌, pos};
ghost use Rattle.station.specs.Refusals.{Answered, unless};
ghost use Rattle.station.specs.Elements.{element_number};
ghost use Rattle.daybook.specs.Grid.{pair_count, place};
ghost use Rattle.daybook.specs.Calls.{day_refusal, pair_refusal, value_refusal};

use station::element::Element;
use station::refusal::Refusal;

const LAST_DAY: i32 = 31;

const ELEMENTS: usize = 12;

// A checked pair: its day is one from 1 to 31.
#[derive(Clone, Copy, PartialEq, Eq)]
pub struct Pair {
    day: u8,
    element: Element,
    ghost day_from: { 1 ≤ day },
    ghost day_to: { day ≤ 31 },
}

impl Pair {
    pub fn check(day: i32, element: i32) -> Result<Pair, Refusal>
        ensures { Answered (pair_refusal day element) result (λ p. (pos p.day ≡ day) × (pos (element_number p.element) ≡ element)) }
    {
        let day = check_day(day)?;
        let element = Element::try_from(element)?;
        Ok(Pair { day, element })
    }

    // The pair of the first day and the first element.
    pub fn first() -> Pair
        ensures day { result.day ≡ 1 }
        ensures element { element_number result.element ≡ 1 }
    {
        Pair {
            day: 1,
            element: Element::StationPressure,
        }
    }

    pub fn day(self) -> u8
        ensures { result ≡ self.day }
    {
        self.day
    }

    pub fn element(self) -> Element
        ensures { result ≡ self.element }
    {
        self.element
    }

    // Declines a value outside the element's range.
    pub fn check_value(self, value: i32) -> Result<(), Refusal>
        ensures { result ≡ unless (value_refusal (pos (element_number self.element)) value) tt }
    {
        if self.element.takes(value) {
            Ok(())
        } else {
            Err(Refusal::Value)
        }
    }

    // The place among all pairs, in order of day and then of element, from 0.
    pub fn place(self) -> usize
        ensures value { result ≡ place self.day (element_number self.element) }
        ensures below { result < pair_count }
    {
        let number = u8::from(self.element);
        ELEMENTS * (usize::from(self.day) - 1) + (usize::from(number) - 1)
    }
}

fn check_day(day: i32) -> Result<u8, Refusal>
    ensures { Answered (day_refusal day) result (λ d. pos d ≡ day) }
{
    if !(1..=LAST_DAY).contains(&day) {
        return Err(Refusal::Day);
    }
    Ok(day as u8)
}
