// Touches of the memory, in the manner of a stretch.
ghost use Rattle.std.specs.Prelude.{◌<◌};
ghost use Rattle.texts.specs.Owed.{Written};

use crate::author::Author;
use crate::chance::Chance;
use crate::page::Page;
use crate::plan::Manner;
use crate::spell::{Head, Leaf};
use model::{Change, Op};

/// A place that a touch is of.
#[derive(Clone, Copy, Debug, PartialEq)]
enum Where {
    /// Any place at all.
    Any,
    /// Any place below a limit.
    Below(u32),
    /// An own place of the thread that is so many further, among those from a place on.
    Own { further: u32, from: u32 },
}

impl Page {
    /// The number of the thread that is so many further, where the first one follows the last.
    fn thread_further(&mut self, by: u32)
        requires { 0 < self.old.owed }
        ensures { Written self.old.owed self.new.owed }
    {
        if by == 0 {
            self.leaf(Leaf::Me);
        } else if self.open(Head::Operation(Op::Rem)) {
            self.operation(Op::Add, Leaf::Me, Leaf::Number(by));
            self.leaf(Leaf::All);
        }
    }

    /// That number, and a multiple of how many threads there are.
    fn thread_and_times(&mut self, further: u32, times: u32)
        requires { 0 < self.old.owed }
        ensures { Written self.old.owed self.new.owed }
    {
        if times == 0 {
            self.thread_further(further);
        } else if self.open(Head::Operation(Op::Add)) {
            self.operation(Op::Mul, Leaf::Number(times), Leaf::All);
            self.thread_further(further);
        }
    }
}

impl Author<'_> {
    /// An own place, from a place on. Now and then it goes by another name: places are taken modulo the words.
    fn own_place(&mut self, further: u32, from: u32)
        requires { 0 < self.old.page.owed }
        ensures { Written self.old.page.owed self.new.page.owed }
    {
        let times = self.draw.below(self.plan.own_words(from));
        let rounds = if self.draw.percent(10) {
            self.draw.below(9)
        } else {
            0
        };
        let first = from.wrapping_add(self.plan.words.wrapping_mul(rounds));
        if first == 0 {
            self.page.thread_and_times(further, times);
        } else if self.page.open(Head::Operation(Op::Add)) {
            self.page.thread_and_times(further, times);
            self.page.leaf(Leaf::Number(first));
        }
    }

    fn place(&mut self, at: Where)
        requires { 0 < self.old.page.owed }
        ensures { Written self.old.page.owed self.new.page.owed }
    {
        match at {
            Where::Any => self.expression(2),
            Where::Below(limit) => if self.page.open(Head::Operation(Op::Rem)) {
                self.expression(2);
                self.page.leaf(Leaf::Number(limit));
            }
            Where::Own { further, from } => self.own_place(further, from),
        }
    }

    /// A read, or nothing where no variable can be read to.
    fn read(&mut self, at: Where)
        requires { 0 < self.old.page.owed }
        ensures { Written self.old.page.owed self.new.page.owed }
    {
        if self.plan.free == 0 {
            return self.page.leaf(Leaf::Nothing);
        }
        let variable = self.draw.below(self.plan.free);
        if self.page.open(Head::Read(variable)) {
            self.place(at);
        }
    }

    fn update(&mut self, change: Change, at: Where)
        requires { 0 < self.old.page.owed }
        ensures { Written self.old.page.owed self.new.page.owed }
    {
        if self.page.open(Head::Update(change)) {
            self.place(at);
            self.expression(2);
        }
    }

    /// A touch in any way.
    fn any_touch(&mut self, at: Where)
        requires { 0 < self.old.page.owed }
        ensures { Written self.old.page.owed self.new.page.owed }
    {
        match self.draw.below(3) {
            0 => self.read(at),
            1 => self.update(Change::Write, at),
            _ => self.update(Change::Add, at),
        }
    }

    /// A touch by one thread alone.
    fn touch_alone(&mut self, thread: u32)
        requires { 0 < self.old.page.owed }
        ensures { Written self.old.page.owed self.new.page.owed }
    {
        if self.page.open(Head::If) {
            self.page
                .operation(Op::Same, Leaf::Me, Leaf::Number(thread));
            self.any_touch(Where::Any);
            self.page.leaf(Leaf::Nothing);
        }
    }

    /// A touch in the manner of its stretch.
    pub fn touch(&mut self, manner: Manner)
        requires { 0 < self.old.page.owed }
        ensures { Written self.old.page.owed self.new.page.owed }
    {
        let half = self.plan.words / 2;
        let lower = if half == 0 {
            Where::Any
        } else {
            Where::Below(half)
        };
        match manner {
            Manner::Own(further) => self.any_touch(Where::Own { further, from: 0 }),
            Manner::Halves if self.draw.percent(50) => self.read(lower),
            Manner::Halves => self.any_touch(Where::Own {
                further: 0,
                from: half,
            }),
            Manner::Reading => self.read(Where::Any),
            Manner::Adding => self.update(Change::Add, Where::Any),
            Manner::Alone(thread) => self.touch_alone(thread),
            Manner::Wild => self.any_touch(Where::Any),
        }
    }
}
