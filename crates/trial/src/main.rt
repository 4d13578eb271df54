// Makes texts by chance, runs each in one order by `run` and in orders that are drawn, and says whether they agree.
#![tactic(auto)]

mod compare;
mod desk;
mod report;

use cli::fault::Fault;
use cli::flag::Flag;
use cli::options::Trial;
use cli::program::{begin, finish};
use compare::compare;
use desk::Desk;
use kernel::draw::Draw;
use report::{Report, Summary, Tally};
use std::process::ExitCode;
use texts::case::Case;

const USAGE: &str = "./kernel trial [--texts N] [--seed N]

Makes so many texts by chance, drawn from the seed, and runs each by run, in 20 drawn
orders, and in the order of run step by step. Of an even text no order may have a clash,
and all must leave what run leaves. Of an uneven one each must have a clash, and the one
that run tells must be met again. The status is 0 where all of them agree.

    --texts N      how many texts are made (500)
    --seed N       where the draw begins (1)
    --help         this

A text has at most 2048 words, 8 threads, 16 turns and 16 words of memory. One that
disagrees is printed in the form of files, with how to run it again. The buffers take
less than 262144 bytes, however many texts there are.";

/// Makes the texts that the options ask for, prints what came of them, and says whether all agree.
fn tell(rt: &HostRuntime, trial: Trial) -> Result<bool, Fault> {
    let mut desk = Desk::new(rt.alloc())?;
    let mut draw = Draw::new(trial.seed);
    let mut tally = Tally::default();
    for number in 0..trial.texts {
        let case = Case::draw(&mut draw);
        let compared = compare(&case, &mut desk, number);
        tally.count(compared);
        if let Err(why) = compared {
            println!(rt;
                "{}",
                Report {
                    number,
                    case: &case,
                    why
                }
            )?;
        }
    }
    let summary = Summary {
        texts: trial.texts,
        seed: trial.seed,
        tally,
    };
    println!(rt; "{summary}")?;
    Ok(tally.all_agree())
}

fn main(rt: HostRuntime) -> ExitCode {
    let begun = begin(&rt, USAGE, &[Flag::Texts, Flag::Seed]);
    finish(&rt, begun, tell)
}
