// A text by `run`, in drawn orders, and led step by step: whether all agree.
use crate::desk::{Desk, Left};
use kernel::draw::Draw;
use kernel::led::meets;
use kernel::{Clash, Ran, Refused};
use texts::case::Case;
use thiserror::Error;

/// In how many orders each text is run.
pub const ORDERS: u32 = 20;

/// What an even text is like: whether it touches the memory, whether threads wait, and whether some are out of turns.
#[derive(Clone, Copy)]
pub struct Picture {
    pub touched: bool,
    pub waited: bool,
    pub out_of_turns: bool,
}

/// How orders don't agree with what `run` says. An order is told by its number.
#[derive(Clone, Copy, Debug, PartialEq, Error)]
pub enum Disagreement {
    #[error("the rows are no text")]
    NoText,
    #[error("too little is lent")]
    TooLittleLent,
    #[error("even, but order {0} has a clash")]
    EvenButClashes(u32),
    #[error("even, but order {0} ends otherwise")]
    EvenButEndsOtherwise(u32),
    #[error("even, but the order of run ends otherwise step by step")]
    EvenButLedElsewhere,
    #[error("uneven, but order {0} has no clash")]
    UnevenButCalm(u32),
    #[error("uneven, but the order of run doesn't meet the clash step by step")]
    UnevenButLedElsewhere,
}

/// A text at a desk, and the seed of its drawn orders.
#[derive(Drop)]
struct Comparison<'a> {
    case: &'a Case,
    desk: &'a mut Desk,
    seed: u32,
}

impl Comparison<'_> {
    /// Runs the text in drawn orders, each from the memory as it is given, up to the first that is judged to disagree.
    fn drawn<J>(&mut self, judge: J) -> Result<(), Disagreement>
    where
        J: Fn(u32, Result<bool, Refused>, &Left) -> Result<(), Disagreement>,
        requires { J.IsAlwaysCallable judge }
    {
        let mut draw = Draw::new(self.seed);
        for order in 0..ORDERS {
            let mut left = Left::before(self.case);
            let drawn = self.desk.draw(self.case, &mut left, &mut draw);
            judge(order, drawn, &left)?;
        }
        Ok(())
    }

    /// An even text: no order has a clash, and each leaves what `run` left.
    fn even(&mut self, left: &Left) -> Result<Picture, Disagreement> {
        self.drawn(|order, drawn, other| match drawn {
            Ok(false) if *other == *left => Ok(()),
            Ok(false) => Err(Disagreement::EvenButEndsOtherwise(order)),
            _ => Err(Disagreement::EvenButClashes(order)),
        })?;
        let mut led = Left::before(self.case);
        match self.desk.lead(self.case, &mut led) {
            Ok(stretches) if led.same_memory(left) => Ok(Picture {
                touched: self.desk.touched(),
                waited: stretches > 1,
                out_of_turns: left.out_of_turns(),
            }),
            _ => Err(Disagreement::EvenButLedElsewhere),
        }
    }

    /// An uneven text: each order has a clash, and the one that `run` tells is met again.
    fn uneven(&mut self, told: Clash) -> Result<(), Disagreement> {
        self.drawn(|order, drawn, _| match drawn {
            Ok(true) => Ok(()),
            _ => Err(Disagreement::UnevenButCalm(order)),
        })?;
        let mut led = Left::before(self.case);
        if meets(self.desk.lead(self.case, &mut led), told) {
            Ok(())
        } else {
            Err(Disagreement::UnevenButLedElsewhere)
        }
    }
}

/// Runs a text by `run`, in orders drawn from a seed, and led step by step, and compares what they come to: where all agree,
/// what an even text is like, and nothing of an uneven one.
pub fn compare<'a>(
    case: &'a Case,
    desk: &'a mut Desk,
    seed: u32,
) -> Result<Option<Picture>, Disagreement> {
    let mut left = Left::before(case);
    let ran = desk.run(case, &mut left);
    let mut comparison = Comparison { case, desk, seed };
    match ran {
        Ran::Even => Ok(Some(comparison.even(&left)?)),
        Ran::Uneven(told) => {
            comparison.uneven(told)?;
            Ok(None)
        }
        Ran::NoKernel => Err(Disagreement::NoText),
        Ran::Few => Err(Disagreement::TooLittleLent),
    }
}
