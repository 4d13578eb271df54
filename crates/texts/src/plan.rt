// What a text is made for: its threads, its memory and its variables.
ghost use Rattle.std.specs.Prelude.{◌+◌, ◌≤◌};

use crate::case::{MOST_THREADS, MOST_WORDS};
use crate::chance::Chance;
use kernel::draw::Draw;

/// So many threads, words of memory and variables. The variables that are free may be set by any statement; those behind
/// them count the rounds of loops.
#[derive(Clone, Copy, Debug, PartialEq)]
pub struct Plan {
    pub threads: u32,
    pub words: u32,
    pub free: u32,
    pub counters: u32,
    ghost few_threads: { threads ≤ 8 },
    ghost short: { words ≤ 16 },
    ghost few: { free + counters ≤ 256 },
}

/// Which places the threads touch in a stretch, and how. In all manners but the last they keep clear of each other.
#[derive(Clone, Copy, Debug, PartialEq)]
pub enum Manner {
    /// Places of the thread's own, or those of the thread that is so many further.
    Own(u32),
    /// All read the lower half, and have own places in the upper half.
    Halves,
    Reading,
    Adding,
    /// Only this thread touches anything.
    Alone(u32),
    /// Any place in any way.
    Wild,
}

/// Mostly a few threads, now and then one or none.
fn some_threads(draw: &mut Draw) -> u32
    ensures { result ≤ 8 }
{
    if draw.percent(5) {
        draw.below(2)
    } else {
        2 + draw.below(MOST_THREADS - 1)
    }
}

/// Any number of words, or, now and then, so many that own places fill the memory.
fn some_words(draw: &mut Draw, threads: u32) -> u32
    ensures { result ≤ 16 }
{
    let most = MOST_WORDS as u32;
    if draw.percent(40) {
        threads.saturating_mul(1 + draw.below(3)).min(most)
    } else {
        draw.below(most + 1)
    }
}

/// How many variables are free: mostly few, now and then all that a text may have beside those that count.
fn some_free(draw: &mut Draw) -> u32
    ensures { result ≤ 253 }
{
    match draw.below(20) {
        0 => 253,
        1 => draw.below(253),
        2 => 0,
        3..=6 => 1,
        _ => draw.below(8),
    }
}

/// How many variables count the rounds of loops: mostly three, now and then none.
fn some_counters(draw: &mut Draw) -> u32
    ensures { result ≤ 3 }
{
    if draw.percent(15) { 0 } else { 3 }
}

impl Plan {
    pub fn draw(draw: &mut Draw) -> Plan {
        let threads = some_threads(draw);
        let words = some_words(draw, threads);
        let free = some_free(draw);
        let counters = some_counters(draw);
        Plan {
            threads,
            words,
            free,
            counters,
        }
    }

    pub fn variables(self) -> u32 {
        self.free + self.counters
    }

    /// How many words each thread can have as its own, from a place on.
    pub fn own_words(self, from: u32) -> u32 {
        self.words
            .saturating_sub(from)
            .checked_div(self.threads)
            .unwrap_or(0)
    }

    /// A manner in which threads keep clear of each other on this memory.
    pub fn clear_manner(self, draw: &mut Draw) -> Manner {
        match draw.below(10) {
            0..=2 if self.own_words(0) > 0 => Manner::Own(0),
            3 if self.own_words(0) > 0 => Manner::Own(1 + draw.below(7)),
            4 | 5 if self.own_words(self.words / 2) > 0 => Manner::Halves,
            0 | 6 | 7 => Manner::Reading,
            1 | 3 | 8 => Manner::Adding,
            _ => Manner::Alone(draw.below(self.threads)),
        }
    }
}
