// Expressions by chance.
ghost use Rattle.std.specs.Prelude.{◌<◌};
ghost use Rattle.texts.specs.Owed.{Written};

use crate::author::Author;
use crate::chance::Chance;
use crate::spell::{Head, Leaf};

impl Author<'_> {
    /// An expression with no part in it.
    fn short(&mut self)
        requires { 0 < self.old.page.owed }
        ensures { Written self.old.page.owed self.new.page.owed }
    {
        let variables = self.plan.variables();
        let leaf = match self.draw.below(6) {
            0 | 1 => Leaf::Number(self.draw.small_or_large()),
            2 | 3 if variables > 0 => Leaf::Variable(self.draw.below(variables)),
            4 => Leaf::All,
            _ => Leaf::Me,
        };
        self.page.leaf(leaf);
    }

    /// An expression, with so many operations in one another at most.
    pub fn expression(&mut self, deep: u32)
        requires { 0 < self.old.page.owed }
        ensures { Written self.old.page.owed self.new.page.owed }
    {
        if deep == 0 || self.draw.percent(60) {
            return self.short();
        }
        if self.page.open(Head::Operation(self.draw.operation())) {
            self.expression(deep - 1);
            self.expression(deep - 1);
        }
    }
}
