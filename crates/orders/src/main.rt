// Runs a text in orders that are drawn, and says whether they ended alike, and in which two threads clashed.
#![tactic(auto)]

ghost use Rattle.std.specs.Prelude.{◌≡◌, length};

use answer::{Left, NoText};
use cli::fault::Fault;
use cli::flag::Flag;
use cli::input::{Input, Parts};
use cli::options::Options;
use cli::program::{begin, finish};
use kernel::draw::Draw;
use kernel::drawn::draw_order;
use kernel::{Job, Lent};
use std::fmt;
use std::process::ExitCode;
use words::budget::Task;

const USAGE: &str =
    "./kernel orders [--threads N] [--turns N] [--memory FILE] [--seed N] [--orders N] ROWS

Runs the text in the file ROWS to its end in so many orders of steps, drawn from the
seed, and says whether they ended alike, and in which of them two threads clashed.

    --threads N    how many threads run it (1)
    --turns N      how many turns of loops each thread has (1000)
    --memory FILE  the words of the memory (none)
    --seed N       where the draw begins (1)
    --orders N     how many orders are run (20)
    --help         this

A file holds words from 0 to 4294967295 in decimal, with white space between them;
a # starts a comment up to the line's end. - is standard input. The buffers take at
most 4194304 bytes in all: 4104, 4098 for each thread, 1 for each order, 20 for each
word of the memory, and 8 for each of the rows.";

/// What an order leaves of the memory that is given: as many words, and a state for each thread. The memories are parts of
/// the one buffer of an input.
#[derive(Drop)]
struct Outcome<'a> {
    given: &'a [u32],
    memory: &'a mut [u32],
    states: Vec<u8>,
    ghost as_many: { length memory.now ≡ length given.now },
}

impl Outcome<'_> {
    fn left(&self) -> Left<'_> {
        Left {
            memory: self.memory,
            states: self.states.as_slice(),
        }
    }
}

/// One order from the memory as it was given, and whether two threads clashed in it.
fn run(job: Job, lent: Lent, outcome: &mut Outcome, draw: &mut Draw) -> Result<bool, Fault> {
    outcome.memory.copy_from_slice(outcome.given);
    let states = outcome.states.as_mut_slice();
    draw_order(job, outcome.memory, states, lent, draw).map_err(|_| Fault::NoMemory)
}

/// Runs all orders, notes in which of them two threads clashed, and says whether all ended like the first: with the
/// same memory, and the same state for each thread.
fn run_all(
    job: Job,
    lent: Lent,
    mut draw: Draw,
    first: &mut Outcome,
    other: &mut Outcome,
    clashes: &mut [bool],
) -> Result<bool, Fault> {
    let Lent { ends, work, marks } = lent;
    let Some((clash, others)) = clashes.split_first_mut() else {
        return Ok(true);
    };
    *clash = run(job, Lent { ends, work, marks }, first, &mut draw)?;
    let mut alike = true;
    for clash in others {
        *clash = run(job, Lent { ends, work, marks }, other, &mut draw)?;
        alike = alike && other.left() == first.left();
    }
    Ok(alike)
}

/// The numbers of the orders with a clash.
#[derive(Clone, Copy)]
struct Clashes<'a>(&'a [bool]);

impl fmt::Display for Clashes<'_> {
    fn fmt<W: fmt::Write>(&self, f: &mut fmt::Formatter<W>) -> fmt::Result {
        if !self.0.contains(&true) {
            return f.write_str("clashes: none");
        }
        f.write_str("clashes:")?;
        for (order, _) in self.0.iter().enumerate().filter(|(_, clash)| **clash) {
            write!(f, " {order}")?;
        }
        Ok(())
    }
}

/// Prints what came of the orders, and says whether they ended alike without a clash.
fn print(rt: &HostRuntime, alike: bool, clashes: &[bool], left: Left) -> Result<bool, Fault> {
    let word = if alike { "alike" } else { "not alike" };
    println!(rt; "{word}\n{}", Clashes(clashes))?;
    let even = alike && !clashes.contains(&true);
    if even && !clashes.is_empty() {
        println!(rt; "{left}")?;
    }
    Ok(even)
}

/// Runs the orders that the options ask for, and prints what came of them.
fn tell(rt: &HostRuntime, options: Options) -> Result<bool, Fault> {
    let threads = options.threads as usize;
    let heap = rt.alloc();
    let mut input = Input::read(rt, &options, Task::Orders(options.threads, options.orders))?;
    let mut clashes = vec![in heap; false; options.orders as usize]?;
    let first_states = vec![in heap; 0u8; threads]?;
    let other_states = vec![in heap; 0u8; threads]?;
    let Parts {
        memory,
        rows,
        ends,
        rest,
    } = input.parts();
    if let Err(refusal) = rows::decode(rows, ends) {
        println!(rt; "no text\n{}", NoText { rows, refusal })?;
        return Ok(false);
    }
    let given: &[u32] = memory;
    let words = given.len();
    let (first, rest) = rest.split_at_mut_checked(words).ok_or(Fault::NoMemory)?;
    let (other, rest) = rest.split_at_mut_checked(words).ok_or(Fault::NoMemory)?;
    let (marks, work) = rest
        .split_at_mut_checked(2 * words.max(1))
        .ok_or(Fault::NoMemory)?;
    let job = Job {
        rows,
        threads: options.threads,
        turns: options.turns,
    };
    let mut first = Outcome {
        given,
        memory: first,
        states: first_states,
    };
    let mut other = Outcome {
        given,
        memory: other,
        states: other_states,
    };
    let lent = Lent { ends, work, marks };
    let draw = Draw::new(options.seed);
    let clash_flags = clashes.as_mut_slice();
    let alike = run_all(job, lent, draw, &mut first, &mut other, clash_flags)?;
    print(rt, alike, clashes.as_slice(), first.left())
}

fn main(rt: HostRuntime) -> ExitCode {
    let begun = begin(
        &rt,
        USAGE,
        &[
            Flag::Threads,
            Flag::Turns,
            Flag::Memory,
            Flag::Seed,
            Flag::Orders,
        ],
    );
    finish(&rt, begun, tell)
}
