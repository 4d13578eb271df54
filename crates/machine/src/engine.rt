// The engine: so many threads of a text, one behind the other in the lent words, and the memory that they share.
ghost use Rattle.std.specs.Prelude.{◌≡◌, ◌+◌, ◌*◌, ◌<◌, ◌≤◌, ◌↔◌, length, IsTrue};
ghost use Rattle.machine.specs.Stands.{source};
ghost use Rattle.machine.specs.All.{StatusOf};
ghost use Rattle.machine.specs.Begins.{AllBegun};
ghost use Rattle.machine.specs.Stepped.{CanStepOf, SteppedOf, Running, Advanced};
ghost use Rattle.machine.specs.Together.{Release, Resumed, status_at};

use crate::release::{Released, release_all};
use crate::resume::resume_all;
use crate::script::Script;
use crate::step::step;
use crate::thread::{STATUS, Status, WORDS, begin, status_named};
use crate::touched::Touch;
use model::ThreadId;

// The work words are as many as its threads take, or more: a caller lends what it has. It is made by its fields wherever
// one begins: of a function that takes both the words and the memory nothing is known of what they end as. The script
// stands behind a reference: were it a field, steps would lend a part of the engine, and what lies in it would be loaded
// anew in each of them.
#[derive(Drop)]
pub struct Engine<'s, 'a> {
    pub script: &'s Script<'a>,
    pub threads: u32,
    pub work: &'a mut [u32],
    pub memory: &'a mut [u32],
    ghost room: { 1024 * threads ≤ length work.now },
}

// So many threads that have their turns, and the text's body to do. By an index, since nothing is known of what a slice
// ends as once its chunks were lent to be written.
pub fn begin_all(work: &mut [u32], threads: u32, turns: u32)
    requires { 1024 * threads ≤ length work.old }
    ensures { AllBegun work.new threads turns }
{
    for j in 0..threads as usize {
        begin(&mut work[WORDS * j..WORDS * j + WORDS], turns);
    }
}

// What thread `me` is at.
pub fn status_of(work: &[u32], me: ThreadId) -> Status
    requires { 1024 * me.0 + 1024 ≤ length work.now }
    ensures { StatusOf work.now me.0 result }
{
    status_named(work[WORDS * me.0 as usize + STATUS])
}

// Each method says `Stays`, since through `&mut` another engine could be put in its place.
impl Engine<'_, '_> {
    ghost use Rattle.machine.specs.Engines.{Stays};

    // All its threads have their turns, and the text's body to do.
    pub fn begin(&mut self, turns: u32)
        ensures begun { AllBegun self.new.work.now self.old.threads turns }
        ensures memory { self.new.memory.now ≡ self.old.memory.now }
        ensures stays { Stays self.old self.new }
    {
        begin_all(self.work, self.threads, turns);
    }

    // What thread `me` is at.
    pub fn status_of(&self, me: ThreadId) -> Status
        requires { 1024 * me.0 + 1024 ≤ length self.now.work.now }
        ensures { StatusOf self.now.work.now me.0 result }
    {
        status_of(self.work, me)
    }

    // Whether thread `me` takes steps. The word is compared as it is, since that is asked at every step.
    pub fn is_going(&self, me: ThreadId) -> bool
        requires { 1024 * me.0 + 1024 ≤ length self.now.work.now }
        ensures { IsTrue result ↔ status_at self.now.work.now me.0 ≡ 0 }
    {
        self.work[WORDS * me.0 as usize + STATUS] == Status::Going as u32
    }

    // A step of thread `me`, and what it touched.
    pub fn step(&mut self, me: ThreadId) -> Option<Touch>
        requires { CanStepOf (source self.old.script.now) self.old.work.now self.old.memory.now me.0 self.old.threads }
        ensures step { SteppedOf (source self.old.script.now) me.0 self.old.threads self.old.work.now self.new.work.now self.old.memory.now self.new.memory.now result }
        ensures stays { Stays self.old self.new }
    {
        let from = WORDS * me.0 as usize;
        step(
            self.script,
            &mut self.work[from..from + WORDS],
            self.memory,
            me,
            self.threads,
        )
    }

    // A step of thread `me`, and what it touched; nothing where it isn't going. `Running` is asked, and no invariant: it
    // holds of the words once a text's threads have begun in them, and of no others.
    pub fn advance(&mut self, me: ThreadId) -> Option<Option<Touch>>
        requires runs { Running (source self.old.script.now) self.old.work.now self.old.memory.now self.old.threads }
        requires known { me.0 < self.old.threads }
        ensures step { Advanced (source self.old.script.now) me.0 self.old.threads self.old.work.now self.new.work.now self.old.memory.now self.new.memory.now result }
        ensures runs { Running (source self.old.script.now) self.new.work.now self.new.memory.now self.old.threads }
        ensures stays { Stays self.old self.new }
    {
        match self.status_of(me) {
            Status::Going => Some(self.step(me)),
            _ => None,
        }
    }

    // All that wait go on, if no thread is going and some wait.
    pub fn release(&mut self) -> Released
        ensures release { Release self.old.work.now self.new.work.now self.old.threads result }
        ensures memory { self.new.memory.now ≡ self.old.memory.now }
        ensures stays { Stays self.old self.new }
    {
        release_all(self.work, self.threads)
    }

    // All that wait go on, and whether any did. That is a step where no thread is going, which the caller has to know.
    pub fn resume(&mut self) -> bool
        ensures resumed { Resumed self.old.work.now self.new.work.now self.old.threads result }
        ensures memory { self.new.memory.now ≡ self.old.memory.now }
        ensures stays { Stays self.old self.new }
    {
        resume_all(self.work, self.threads)
    }
}
