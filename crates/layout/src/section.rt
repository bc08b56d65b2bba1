// The sections of a report: the month, the normals, days against limits, and extremes.
#[derive(Clone, Copy)]
pub enum Section {
    First,
    Second,
    Third,
    Fourth,
}
