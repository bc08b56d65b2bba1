// A field of a report: a figure that is shown, a bar, or nothing, where its whole group is left out.
ghost use Rattle.layout.specs.Fields.{MayMap, Mapped};

#[derive(Clone, Copy)]
pub enum Field<F> {
    Shown(F),
    Barred,
    LeftOut,
}

impl<F> Field<F> {
    // The same state, with what is made of the figure.
    pub(crate) fn map<G, M: FnOnce(F) -> G>(self, make: M) -> Field<G>
        requires { MayMap (M.pre make) self }
        ensures { Mapped (M.post make) self result }
    {
        match self {
            Field::Shown(figure) => Field::Shown(make(figure)),
            Field::Barred => Field::Barred,
            Field::LeftOut => Field::LeftOut,
        }
    }
}
