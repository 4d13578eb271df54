// Why rows are no text, and where.
ghost use Rattle.std.specs.Prelude.{◌≡◌};

#[derive(Clone, Copy, Debug, PartialEq, Eq)]
pub enum Fault {
    EndsEarly,
    NoStatement,
    NoExpression,
    NoOperation,
    NoVariable,
    TooDeep,
    AfterEnd,
    TooManyWords,
    TooManyVariables,
    ShortTable,
}

impl Fault {
    // The refusal of rows for this fault at such a word.
    pub(crate) fn at(self, at: usize) -> Refusal
        ensures { result ≡ record { at = at; why = self } }
    {
        Refusal { at, why: self }
    }
}

// `at` is the position of the word at which reading failed, counted from 0.
#[derive(Clone, Copy, Debug, PartialEq, Eq)]
pub struct Refusal {
    pub at: usize,
    pub why: Fault,
}
