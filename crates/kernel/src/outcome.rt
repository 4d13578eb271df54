// How a run of a text comes out.
ghost use Rattle.std.specs.Prelude.{◌≡◌};
ghost use Rattle.kernel.specs.Whole.{ran_in_words};

pub use model::Clash;

// No order has a clash; some order has this one; the rows are no text; or too little is lent to run them. It has a variant
// for each number that C is answered.
#[derive(Clone, Copy, Debug, PartialEq, Eq)]
pub enum Ran {
    Even,
    Uneven(Clash),
    NoKernel,
    Few,
}

impl From<Result<(), Clash>> for Ran {
    ghost from_gives = { λ outcome ran. ran ≡ ran_in_words outcome };

    fn from(outcome: Result<(), Clash>) -> Ran {
        match outcome {
            Ok(()) => Ran::Even,
            Err(clash) => Ran::Uneven(clash),
        }
    }
}
