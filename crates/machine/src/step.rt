// One step of one thread.
ghost use Rattle.machine.specs.Stands.{source};
ghost use Rattle.machine.specs.Stepped.{CanStep, Stepped};

use crate::rule::{Doing, wait};
use crate::script::{Script, statement_head};
use crate::thread::{HEIGHT, Status, WORDS, pop, top, write_status};
use crate::touched::{Change, Touch, Who};
use model::ThreadId;
use rows::head::Statement;

// A step of thread `me`, one of `all`, by its words: of every thread that they hold it is the step of the
// definitions, and what is returned is what that step touched.
pub fn step(
    script: &Script,
    words: &mut [u32],
    memory: &mut [u32],
    me: ThreadId,
    all: u32,
) -> Option<Touch>
    requires { CanStep (source script.now) words.old }
    ensures { Stepped (source script.now) me.0 all words.old words.new memory.old memory.new result }
{
    let Some(words) = words.as_mut_array() else {
        unreachable!()
    };
    step_of(script, words, memory, Who { me, all })
}

// .. by words of which the type says how many they are, which `step` can't ask of its callers.
fn step_of(script: &Script, words: &mut [u32; WORDS], memory: &mut [u32], who: Who) -> Option<Touch>
    requires { CanStep (source script.now) words.old }
    ensures { Stepped (source script.now) who.me.0 who.all words.old words.new memory.old memory.new result }
{
    if words[HEIGHT] == 0 {
        write_status(words, Status::Ended);
        return None;
    }
    let at = top(words);
    let doing = Doing { script, who, at };

    // A rule for each statement, by a match, since the engine has no heap for closures. Three of them touch the memory, and tell it.
    match statement_head(script, at) {
        Statement::Skip => pop(words),
        Statement::Seq => doing.split(words),
        Statement::Assign(x) => doing.assign(words, x),
        Statement::Read(x) => return Some(doing.read(words, memory, x)),
        Statement::Write => return Some(doing.update(words, memory, Change::Write)),
        Statement::Increase => return Some(doing.update(words, memory, Change::Add)),
        Statement::If => doing.choose(words),
        Statement::While => doing.turn(words),
        Statement::Wait => wait(words),
    }
    None
}
