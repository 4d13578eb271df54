// The call `run`: whether a text is even or uneven, told by one order for all.
ghost use Rattle.std.specs.Prelude.{◌≡◌, ◌*◌, ◌≤◌, ◌||◌, length, nat_lt};
ghost use Rattle.ledger.specs.Runs.{ledger_words};
ghost use Rattle.kernel.specs.Says.{floor, RanPost};
ghost use Rattle.kernel.specs.Whole.{HandsOut, HasRun};

use crate::job::Job;
use crate::outcome::Ran;
use crate::sequence::run_in_turn;
use crate::states::write_states;
use machine::{Engine, Script};
use rows::decode;

// How many work words a job asks for, with so many words of memory. No sizes are so large that this could overflow.
fn words_asked(job: Job, memory: usize) -> u128
    ensures { result ≡ floor (length job.entry.rows.now) memory job.entry.threads }
{
    4096 + 8 * job.rows.len() as u128 + 4 * memory as u128 + 1024 * job.threads as u128
}

// Whether so many state bytes and work words are too few.
fn too_little(job: Job, memory: usize, states: usize, work: usize) -> bool
    ensures { result ≡ (nat_lt states job.entry.threads || nat_lt work (floor (length job.entry.rows.now) memory job.entry.threads)) }
{
    states < job.threads as usize || (work as u128) < words_asked(job, memory)
}

// Of an even run, the copy of the memory and the threads' states; nothing of any other.
fn hand_out(ran: Ran, engine: &Engine, memory: &mut [u32], states: &mut [u8])
    requires copy { length memory.old ≡ length engine.now.memory.now }
    requires places { engine.now.threads ≤ length states.old }
    ensures { HandsOut ran engine.now memory.old memory.new states.old states.new }
{
    if let Ran::Even = ran {
        memory.copy_from_slice(engine.memory);
        write_states(engine, states);
    }
}

// The parts of the lent words: the table of ends, a copy of the memory, two words for each place, and 1,024 for each
// thread. These are not `Lent`: that is what a caller lends beside the memory, and here the memory is run in a copy.
#[derive(Drop)]
struct Parts<'a> {
    ends: &'a mut [u32],
    copy: &'a mut [u32],
    marks: &'a mut [u32],
    work: &'a mut [u32],
}

// Runs the rows in the parts of the lent words. The memory itself is changed only once the run is known to be even.
fn run_in_parts<'a>(job: Job<'a>, parts: Parts<'a>, memory: &mut [u32], states: &mut [u8]) -> Ran
    requires states { job.threads ≤ length states.old }
    requires ends { length job.rows.now ≤ length parts.ends.now }
    requires copy { length parts.copy.now ≡ length memory.old }
    requires marks { ledger_words (length memory.old) ≤ length parts.marks.now }
    requires work { 1024 * job.threads ≤ length parts.work.now }
    ensures { HasRun job.entry.rows.now job.entry.threads job.entry.turns memory.old memory.new states.old states.new result }
{
    let Parts {
        ends,
        copy,
        marks,
        work,
    } = parts;
    let Ok(text) = decode(job.rows, ends) else {
        return Ran::NoKernel;
    };
    copy.copy_from_slice(memory);
    let script = Script {
        rows: job.rows,
        ends,
        variables: text.variables,
    };
    let mut engine = Engine {
        script: &script,
        threads: job.threads,
        work,
        memory: copy,
    };
    let ran = Ran::from(run_in_turn(&mut engine, job.turns, marks));
    hand_out(ran, &engine, memory, states);
    ran
}

// Whether the text is even for so many threads, with so many turns each, on this memory: then memory and states are left
// as every order leaves them, 2 for a thread that ended and 3 for one that is out of turns. If not, both stay
// as they are, and where the text is uneven two threads and a place are told that clash.
// It is the call that users embed, so its parameters and its answer stay plain, as C has them.
pub fn run(
    kernel: &[u32],
    threads: u32,
    turns: u32,
    memory: &mut [u32],
    states: &mut [u8],
    work: &mut [u32],
) -> Ran
    ensures { RanPost kernel.now threads turns memory.old memory.new states.old states.new (length work.old) result }
{
    let job = Job {
        rows: kernel,
        threads,
        turns,
    };
    if too_little(job, memory.len(), states.len(), work.len()) {
        return Ran::Few;
    }
    let (ends, rest) = work.split_at_mut(kernel.len());
    let (copy, rest) = rest.split_at_mut(memory.len());
    let (marks, work) = rest.split_at_mut(2 * memory.len().max(1));
    let parts = Parts {
        ends,
        copy,
        marks,
        work,
    };
    run_in_parts(job, parts, memory, states)
}
