// The kinds of weather that a report counts days of.
#[derive(Clone, Copy, PartialEq, Eq, Debug)]
pub enum Phenomenon {
    Thunder,
    Hail,
}
