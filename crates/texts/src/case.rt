// A text with all that a run of it is asked for.
ghost use Rattle.std.specs.Prelude.{◌≡◌, ◌≤◌, length};

use crate::author::Author;
use crate::chance::Chance;
use crate::page::Page;
use crate::plan::Plan;
use arrayvec::ArrayVec;
use kernel::draw::Draw;
use std::array;

/// How many words a memory has at most.
pub const MOST_WORDS: usize = 16;

/// How many threads there are at most.
pub const MOST_THREADS: u32 = 8;

/// A text, so many threads with so many turns each, and a memory.
#[derive(Debug, PartialEq, Drop)]
pub struct Case {
    page: Page,
    threads: u32,
    turns: u32,
    memory: ArrayVec<u32, MOST_WORDS>,
    ghost few: { threads ≤ 8 },
}

/// Mostly enough for a few loops, now and then too few.
fn some_turns(draw: &mut Draw) -> u32 {
    if draw.percent(25) {
        draw.below(4)
    } else {
        4 + draw.below(13)
    }
}

impl Case {
    /// A case, with nothing owed on its page.
    pub fn draw(draw: &mut Draw) -> Case
        ensures { result.page.owed ≡ 0 }
    {
        let plan = Plan::draw(draw);
        let mut author = Author {
            page: Page::begin(plan.variables()),
            draw,
            plan,
        };
        author.statement();
        let Author { page, draw, .. } = author;
        let mut memory = ArrayVec::from(array::from_fn(|_| draw.small_or_large()));
        memory.truncate(plan.words as usize);
        Case {
            page,
            threads: plan.threads,
            turns: some_turns(draw),
            memory,
        }
    }

    pub fn rows(&self) -> &[u32]
        ensures value { result.now ≡ self.now.page.words.items }
        ensures bound { length result.now ≤ 2048 }
    {
        self.page.rows()
    }

    pub fn threads(&self) -> u32
        ensures value { result ≡ self.now.threads }
        ensures bound { result ≤ 8 }
    {
        self.threads
    }

    pub fn turns(&self) -> u32
        ensures { result ≡ self.now.turns }
    {
        self.turns
    }

    pub fn memory(&self) -> &[u32]
        ensures value { result.now ≡ self.now.memory.items }
        ensures bound { length result.now ≤ 16 }
    {
        self.memory.as_slice()
    }
}
