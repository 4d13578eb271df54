// Parts of a text in which all touches are of one manner.
ghost use Rattle.std.specs.Prelude.{◌<◌};
ghost use Rattle.texts.specs.Owed.{Written, Opened};

use crate::author::Author;
use crate::page::Page;
use crate::plan::Manner;
use crate::spell::{Head, Leaf};
use model::Op;

impl Page {
    /// Sets a variable to one more.
    pub fn count_up(&mut self, counter: u32)
        requires { 0 < self.old.owed }
        ensures { Written self.old.owed self.new.owed }
    {
        if self.open(Head::Set(counter)) {
            self.operation(Op::Add, Leaf::Variable(counter), Leaf::Number(1));
        }
    }

    /// A loop that goes round while a variable is below a limit; its body, and what counts the variable up, are to follow.
    pub fn open_counted(&mut self, counter: u32, limit: u32) -> bool
        requires { 0 < self.old.owed }
        ensures { Opened 2 self.old.owed self.new.owed result }
    {
        if !self.open(Head::While) {
            return false;
        }
        self.operation(Op::Less, Leaf::Variable(counter), Leaf::Number(limit));
        self.open(Head::Two)
    }
}

impl Author<'_> {
    /// A statement with no statement in it but for a touch by one thread alone.
    fn small(&mut self, manner: Manner, waits: bool)
        requires { 0 < self.old.page.owed }
        ensures { Written self.old.page.owed self.new.page.owed }
    {
        match self.draw.below(16) {
            0 => self.page.leaf(Leaf::Nothing),
            1 if waits => self.page.leaf(Leaf::Wait),
            1..=3 if self.plan.free > 0 => {
                let variable = self.draw.below(self.plan.free);
                if self.page.open(Head::Set(variable)) {
                    self.expression(3);
                }
            }
            _ => self.touch(manner),
        }
    }

    /// A part of a text, with so many statements in one another at most.
    pub fn part(&mut self, manner: Manner, deep: u32, waits: bool)
        requires { 0 < self.old.page.owed }
        ensures { Written self.old.page.owed self.new.page.owed }
    {
        if deep == 0 {
            return self.small(manner, waits);
        }
        let deep = deep - 1;
        match self.draw.below(40) {
            0..=23 => if self.page.open(Head::Two) {
                self.part(manner, deep, waits);
                self.part(manner, deep, waits);
            }
            24..=30 => if self.page.open(Head::If) {
                self.expression(2);
                self.part(manner, deep, waits);
                self.part(manner, deep, waits);
            }
            31 => if self.page.open(Head::While) {
                self.expression(2);
                self.part(manner, deep, waits);
            }
            32..=35 if self.plan.free > 0 => {
                let counter = self.draw.below(self.plan.free);
                let limit = 1 + self.draw.below(3);
                if self.page.open_counted(counter, limit) {
                    self.part(manner, deep, waits);
                    self.page.count_up(counter);
                }
            }
            _ => self.small(manner, waits),
        }
    }
}
