// The rules of a step, one for each statement, in the order of the definitions.
ghost use Rattle.std.specs.Prelude.{◌≡◌, ◌+◌, ◌<◌, ◌≤◌, length, slice_index, slice_set, Some};
ghost use Rattle.model.specs.Kernel.{changed, place};
ghost use Rattle.machine.specs.Stands.{source, end};
ghost use Rattle.machine.specs.Words.{popped, pushed};
ghost use Rattle.machine.specs.Rules.{SomeExpr, Busy, Asks, ValueOf, Assigned, HasRead, HasChanged, Chosen, Turned};
ghost use Rattle.rows.specs.declared.head.Statement.TheVariants.{Seq, Assign, Read, Write, If, While};

use crate::expression::{Seen, value_at};
use crate::script::Script;
use crate::thread::{LEFT, Status, WORDS, pop, push, write_status};
use crate::touched::{Access, Change, Touch, Who};
use model::Place;
use rows::decoder::MOST_DEEP;

// Any number names a place: it is taken modulo the number of words. Most numbers are places as they are, and
// are not divided for it. Where there are no words, it is place 0.
fn place_of(memory: &[u32], number: u32) -> Place
    ensures { result.0 ≡ place number (length memory.now) }
{
    let number = number as usize;
    if number < memory.len() {
        Place(number)
    } else {
        Place(number.checked_rem(memory.len()).unwrap_or(0))
    }
}

fn word_at(memory: &[u32], at: Place) -> u32
    ensures { result ≡ slice_index memory.now at.0 }
{
    memory.get(at.0).copied().unwrap_or(0)
}

// Where there are no words, nothing is changed. By an index, since nothing is known of a slice once `get_mut` lent a
// word of it.
fn put(memory: &mut [u32], at: Place, change: Change, value: u32)
    ensures { memory.new ≡ slice_set memory.old at.0 (changed change (slice_index memory.old at.0) value) }
{
    if at.0 < memory.len() {
        memory[at.0] = match change {
            Change::Write => value,
            Change::Add => memory[at.0].wrapping_add(value),
        };
    }
}

// What a thread does: the text, who it is, and where the statement stands that it takes. Each rule says `Busy` and what it asks
// for: both speak of the words too, and no longer hold once the statement is popped, so they are no invariant.
#[derive(Clone, Copy)]
pub struct Doing<'a> {
    pub script: &'a Script<'a>,
    pub who: Who,
    pub at: usize,
}

impl Doing<'_> {
    // The value of the expression that stands at `at`, to the thread whose words these are.
    fn value_of(&self, words: &[u32; WORDS], at: usize) -> u32
        requires few { self.now.script.now.variables ≤ 256 }
        requires stands { SomeExpr (source self.now.script.now) at }
        ensures { ValueOf (source self.now.script.now) words.now self.now.who at result }
    {
        let seen = Seen {
            variables: &words[0..self.script.variables as usize],
            me: self.who.me.0,
            all: self.who.all,
        };
        value_at(self.script, &seen, at, MOST_DEEP)
    }

    // One after the other: the first is next, and the second lies below it.
    pub fn split(&self, words: &mut [u32; WORDS])
        requires busy { Busy (source self.now.script.now) words.old self.now.at }
        requires asks { Asks (source self.now.script.now) self.now.at Seq }
        ensures { words.new ≡ pushed (pushed (popped words.old) (end (source self.now.script.now) (self.now.at + 1))) (self.now.at + 1) }
    {
        pop(words);
        push(words, self.script.ends[self.at + 1]);
        push(words, (self.at + 1) as u32);
    }

    pub fn assign(&self, words: &mut [u32; WORDS], x: u32)
        requires busy { Busy (source self.now.script.now) words.old self.now.at }
        requires asks { Asks (source self.now.script.now) self.now.at (Assign x) }
        ensures { Assigned (source self.now.script.now) self.now.who self.now.at words.old words.new x }
    {
        words[x as usize] = self.value_of(words, self.at + 2);
        pop(words);
    }

    pub fn read(&self, words: &mut [u32; WORDS], memory: &[u32], x: u32) -> Touch
        requires busy { Busy (source self.now.script.now) words.old self.now.at }
        requires asks { Asks (source self.now.script.now) self.now.at (Read x) }
        ensures { HasRead (source self.now.script.now) self.now.who self.now.at words.old words.new memory.now x (Some result) }
    {
        let place = place_of(memory, self.value_of(words, self.at + 2));
        words[x as usize] = word_at(memory, place);
        pop(words);
        Touch {
            place,
            access: Access::Reading,
        }
    }

    // Without a call the compiler keeps what `self` holds in registers.
    #[inline(always)]
    pub fn update(&self, words: &mut [u32; WORDS], memory: &mut [u32], change: Change) -> Touch
        requires busy { Busy (source self.now.script.now) words.old self.now.at }
        requires asks { Asks (source self.now.script.now) self.now.at Write }
        ensures { HasChanged (source self.now.script.now) self.now.who self.now.at words.old words.new memory.old memory.new change (Some result) }
    {
        let second = self.script.ends[self.at + 1] as usize;
        let place = place_of(memory, self.value_of(words, self.at + 1));
        let value = self.value_of(words, second);
        put(memory, place, change, value);
        pop(words);
        Touch {
            place,
            access: Access::Changing(change),
        }
    }

    pub fn choose(&self, words: &mut [u32; WORDS])
        requires busy { Busy (source self.now.script.now) words.old self.now.at }
        requires asks { Asks (source self.now.script.now) self.now.at If }
        ensures { Chosen (source self.now.script.now) self.now.who self.now.at words.old words.new }
    {
        let first = self.script.ends[self.at + 1];
        let second = self.script.ends[first as usize];
        let test = self.value_of(words, self.at + 1);
        pop(words);
        push(words, if test == 0 { second } else { first });
    }

    // A loop keeps its position while its body stands above it, and a thread without a turn keeps its loop.
    pub fn turn(&self, words: &mut [u32; WORDS])
        requires busy { Busy (source self.now.script.now) words.old self.now.at }
        requires asks { Asks (source self.now.script.now) self.now.at While }
        ensures { Turned (source self.now.script.now) self.now.who self.now.at words.old words.new }
    {
        if self.value_of(words, self.at + 1) == 0 {
            pop(words);
        } else if words[LEFT] == 0 {
            write_status(words, Status::OutOfTurns);
        } else {
            let body = self.script.ends[self.at + 1];
            words[LEFT] -= 1;
            push(words, body);
        }
    }
}

pub fn wait(words: &mut [u32; WORDS])
    requires { 0 < slice_index words.old 258 }
    ensures { words.new ≡ slice_set (popped words.old) 257 1 }
{
    pop(words);
    write_status(words, Status::Waiting);
}
