// The calls on a daybook as values, and what each answers.
use station::refusal::Refusal;

#[derive(Clone, Copy)]
pub enum Call {
    Enter { day: i32, element: i32, value: i32 },
    Strike { day: i32, element: i32 },
    LookUp { day: i32, element: i32 },
}

#[derive(Clone, Copy)]
pub enum Answer {
    // to an entry or a strike
    Changed(Result<(), Refusal>),
    // to a look-up
    Found(Result<Option<i32>, Refusal>),
}

// A call and, once it was carried out, its answer.
#[derive(Clone, Copy)]
pub struct Logged {
    pub call: Call,
    pub answer: Option<Answer>,
}
