// Says whether rows are a text, and how large it is.
#![tactic(auto)]

use answer::{NoText, Size};
use cli::fault::Fault;
use cli::flag::Flag;
use cli::input::{Input, Parts};
use cli::options::Options;
use cli::program::{begin, finish};
use std::process::ExitCode;
use words::budget::Task;

const USAGE: &str = "./kernel run [--threads N] [--turns N] [--memory FILE] ROWS

Says whether the words of the file ROWS are a text, and how large it is.

    --threads N    how many threads run it (1)
    --turns N      how many turns of loops each thread has (1000)
    --memory FILE  the words of the memory (none)
    --help         this

A file holds words from 0 to 4294967295 in decimal, with white space between them;
a # starts a comment up to the line's end. - is standard input. A file of more than
67108864 bytes is refused, and so are words for which the buffers would take more
than 4194304 bytes: 4096, 4 for each word of the memory, and 8 for each of the rows.";

/// Whether the rows are a text, which it prints.
fn tell(rt: &HostRuntime, options: Options) -> Result<bool, Fault> {
    let mut input = Input::read(rt, &options, Task::Read)?;
    let Parts { rows, ends, .. } = input.parts();
    match rows::decode(rows, ends) {
        Ok(text) => {
            println!(rt; "{}", Size(text))?;
            Ok(true)
        }
        Err(refusal) => {
            println!(rt; "no text\n{}", NoText { rows, refusal })?;
            Ok(false)
        }
    }
}

fn main(rt: HostRuntime) -> ExitCode {
    let begun = begin(&rt, USAGE, &[Flag::Threads, Flag::Turns, Flag::Memory]);
    finish(&rt, begun, tell)
}
