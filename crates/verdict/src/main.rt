// Runs a text in one order, and says what holds of all orders: whether it is even.
#![tactic(auto)]

use answer::{Even, Left, NoText, Uneven};
use cli::fault::Fault;
use cli::flag::Flag;
use cli::input::{Input, Parts};
use cli::options::Options;
use cli::program::{begin, finish};
use kernel::Ran;
use std::process::ExitCode;
use words::budget::Task;

const USAGE: &str = "./kernel verdict [--threads N] [--turns N] [--memory FILE] [--quiet] ROWS

Runs the text in the file ROWS in one order of steps, and says what holds of all
orders: even, where none has a clash and all leave the same memory and states, which
it prints; or uneven, with two threads and a place where they clash. A state is 2 for
a thread that ended, and 3 for one that is out of turns. The status is 0 for even.

    --threads N    how many threads run it (1)
    --turns N      how many turns of loops each thread has (1000)
    --memory FILE  the words of the memory (none)
    --quiet        print the first line alone
    --help         this

A file holds words from 0 to 4294967295 in decimal, with white space between them;
a # starts a comment up to the line's end. - is standard input. A file of more than
67108864 bytes is refused. The buffers take at most 4194304 bytes in all: 20480, 4097
for each thread, 20 for each word of the memory, and 40 for each of the rows.";

/// Prints that a text is even, and what its run leaves.
fn print_even(rt: &HostRuntime, left: Left, quiet: bool) -> Result<(), Fault> {
    println!(rt; "{}", Even(left.states))?;
    if !quiet {
        println!(rt; "{left}")?;
    }
    Ok(())
}

/// Prints that rows are no text, and where and why, for which they are read once more.
fn print_no_text(
    rt: &HostRuntime,
    rows: &[u32],
    ends: &mut [u32],
    quiet: bool,
) -> Result<(), Fault> {
    println!(rt; "no text")?;
    if !quiet && let Err(refusal) = rows::decode(rows, ends) {
        println!(rt; "{}", NoText { rows, refusal })?;
    }
    Ok(())
}

/// Runs the text that the options name, prints what came of it, and says whether it is even.
fn tell(rt: &HostRuntime, options: Options) -> Result<bool, Fault> {
    let threads = options.threads;
    let quiet = options.quiet;
    let mut input = Input::read(rt, &options, Task::Run(threads))?;
    let mut states = vec![in rt.alloc(); 0u8; threads as usize]?;
    let states = states.as_mut_slice();
    let Parts {
        memory,
        rows,
        ends,
        rest: work,
    } = input.parts();
    match kernel::run(rows, threads, options.turns, memory, states, work) {
        Ran::Even => {
            print_even(rt, Left { memory, states }, quiet)?;
            return Ok(true);
        }
        Ran::Uneven(clash) => println!(rt; "{}", Uneven(clash))?,
        Ran::NoKernel => print_no_text(rt, rows, ends, quiet)?,
        // the words that are lent are as many as the call asks for
        Ran::Few => return Err(Fault::NoMemory),
    }
    Ok(false)
}

fn main(rt: HostRuntime) -> ExitCode {
    let begun = begin(
        &rt,
        USAGE,
        &[Flag::Threads, Flag::Turns, Flag::Memory, Flag::Quiet],
    );
    finish(&rt, begun, tell)
}
