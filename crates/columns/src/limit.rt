// Limits on an element's values.
use station::element::Element;

#[derive(Clone, Copy, PartialEq, Eq, Debug)]
pub enum Comparison {
    AtLeast,
    Above,
    Under,
}

#[derive(Clone, Copy, PartialEq, Eq, Debug)]
pub struct Limit {
    pub element: Element,
    pub comparison: Comparison,
    // in the element's unit
    pub bound: i32,
}
