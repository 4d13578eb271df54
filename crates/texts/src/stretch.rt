// Whole texts: stretches one after the other, each with a wait behind it, some in loops of equal rounds.
ghost use Rattle.std.specs.Prelude.{◌<◌, ◌≤◌};
ghost use Rattle.texts.specs.Owed.{Written, Opened};

use crate::author::Author;
use crate::chance::Chance;
use crate::page::Page;
use crate::plan::Manner;
use crate::spell::{Head, Leaf};

impl Page {
    /// A loop of so many rounds, counted from 0; its body, and what counts, are to follow.
    fn open_rounds(&mut self, counter: u32, rounds: u32) -> bool
        requires { 0 < self.old.owed }
        ensures { Opened 2 self.old.owed self.new.owed result }
    {
        if !self.open(Head::Two) {
            return false;
        }
        if self.open(Head::Set(counter)) {
            self.leaf(Leaf::Number(0));
        }
        self.open_counted(counter, rounds)
    }
}

impl Author<'_> {
    /// A stretch and its wait. Where the text is careless, the wait may be missing, or threads touch any place.
    fn stretch(&mut self, careless: bool)
        requires { 0 < self.old.page.owed }
        ensures { Written self.old.page.owed self.new.page.owed }
    {
        let manner = if careless && self.draw.percent(50) {
            Manner::Wild
        } else {
            self.plan.clear_manner(self.draw)
        };
        if careless && self.draw.percent(50) {
            self.part(manner, 3, false);
        } else if self.page.open(Head::Two) {
            self.part(manner, 3, false);
            self.page.leaf(Leaf::Wait);
        }
    }

    /// Stretches one after the other, with so many loops in one another at most.
    fn stretches(&mut self, deep: u32, careless: bool)
        requires { 0 < self.old.page.owed }
        ensures { Written self.old.page.owed self.new.page.owed }
    {
        if deep == 0 {
            return self.stretch(careless);
        }
        match self.draw.below(10) {
            0..=5 => if self.page.open(Head::Two) {
                self.stretches(deep - 1, careless);
                self.stretches(deep - 1, careless);
            }
            6..=8 if deep <= self.plan.counters => {
                let counter = self.plan.free + deep - 1;
                let rounds = 1 + self.draw.below(3);
                if self.page.open_rounds(counter, rounds) {
                    self.stretches(deep - 1, careless);
                    self.page.count_up(counter);
                }
            }
            _ => self.stretch(careless),
        }
    }

    /// Two parts in one manner, one after the other, with waits anywhere.
    fn in_one_manner(&mut self, manner: Manner)
        requires { 0 < self.old.page.owed }
        ensures { Written self.old.page.owed self.new.page.owed }
    {
        if self.page.open(Head::Two) {
            self.part(manner, 4, true);
            self.part(manner, 4, true);
        }
    }

    /// A text's statement. Where one manner is kept throughout, a wait may stand anywhere.
    pub fn statement(&mut self)
        requires { 0 < self.old.page.owed }
        ensures { Written self.old.page.owed self.new.page.owed }
    {
        match self.draw.below(20) {
            0 | 1 => {
                let manner = self.plan.clear_manner(self.draw);
                self.in_one_manner(manner);
            }
            2..=5 => self.stretches(3, false),
            6..=12 => self.stretches(3, true),
            _ => self.in_one_manner(Manner::Wild),
        }
    }
}
