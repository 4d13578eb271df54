// What is drawn in many places.
use kernel::draw::Draw;
use model::Op;

/// Draws from which texts are made.
pub trait Chance {
    /// True so many times in a hundred.
    fn percent(&mut self, chance: u32) -> bool;

    /// Mostly a small number, now and then any, or one at which sums wrap.
    fn small_or_large(&mut self) -> u32;

    fn operation(&mut self) -> Op;
}

impl Chance for Draw {
    fn percent(&mut self, chance: u32) -> bool {
        self.below(100) < chance
    }

    fn small_or_large(&mut self) -> u32 {
        match self.below(8) {
            0 => self.next(),
            1 => u32::MAX - self.below(4),
            _ => self.below(20),
        }
    }

    fn operation(&mut self) -> Op {
        Op::try_from(self.below(7)).unwrap_or(Op::Same)
    }
}
