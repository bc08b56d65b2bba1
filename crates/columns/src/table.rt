// The limits that a report counts days against.
ghost use Rattle.std.specs.Prelude.{◌≡◌};
ghost use Rattle.columns.specs.Counts.{limits};

use crate::limit::{Comparison, Limit};
use station::element::Element;

// An element, how its values are compared, and with which bound.
macro_rules! limit {
    ($element:ident, $comparison:ident, $bound:literal) => {
        Limit {
            element: Element::$element,
            comparison: Comparison::$comparison,
            bound: $bound,
        }
    };
}

const LIMITS: [Limit; 22] = [
    limit!(HighestTemperature, AtLeast, 250),
    limit!(HighestTemperature, AtLeast, 300),
    limit!(HighestTemperature, AtLeast, 350),
    limit!(HighestTemperature, AtLeast, 400),
    limit!(LowestTemperature, Under, 0),
    limit!(HighestTemperature, Under, 0),
    limit!(Rain, AtLeast, 10),
    limit!(Rain, AtLeast, 50),
    limit!(Rain, AtLeast, 100),
    limit!(Rain, AtLeast, 500),
    limit!(Rain, AtLeast, 1000),
    limit!(Rain, AtLeast, 1500),
    limit!(SnowDepth, Above, 0),
    limit!(SnowDepth, Above, 1),
    limit!(SnowDepth, Above, 10),
    limit!(SnowDepth, Above, 50),
    limit!(Wind, AtLeast, 100),
    limit!(Wind, AtLeast, 200),
    limit!(Wind, AtLeast, 300),
    limit!(Visibility, Under, 5),
    limit!(Visibility, Under, 10),
    limit!(Visibility, Under, 100),
];

// In the order of the report.
pub fn report_limits() -> [Limit; 22]
    ensures { result ≡ limits }
{
    LIMITS
}
