// What keeps a program from its work, and what its user can do about it.
ghost use Rattle.std.specs.Prelude.{◌≡◌};
ghost use Rattle.cli.specs.declared.fault.Fault.TheVariants.{NoMemory};

use crate::flag::Flag;
use std::alloc::AllocError;
use std::{fmt, io};
use thiserror::Error;
use words::budget::{BUDGET, Role, Task};
use words::flaw::Flaw;
use words::quote::Quote;

/// The name that a user gave to a file.
#[derive(Debug, Drop)]
pub struct FileName(pub String);

impl fmt::Display for FileName {
    fn fmt<W: fmt::Write>(&self, f: &mut fmt::Formatter<W>) -> fmt::Result {
        match self.0.as_str() {
            "-" => f.write_str("standard input"),
            "" => f.write_str("''"),
            name => {
                for letter in name.chars() {
                    f.write_char(if letter.is_control() { '?' } else { letter })?;
                }
                Ok(())
            }
        }
    }
}

#[derive(Debug, Drop, Error)]
pub enum Fault {
    #[error("unknown option '{0}': --help lists the options")]
    UnknownOption(Quote),
    #[error("{0} has no value: write one behind it")]
    NoValue(Flag),
    #[error("{0}: '{1}' is no number from 0 to 4294967295")]
    NoNumber(Flag, Quote),
    #[error("{0} is given twice: give it once")]
    Twice(Flag),
    #[error("no ROWS: name the file of the rows, or - for standard input")]
    NoRows,
    #[error("'{0}' is a second ROWS: name one file")]
    TwoRows(Quote),
    #[error("'{0}' is no option, and no file is read: --help lists the options")]
    NoFile(Quote),
    #[error("- is both --memory and ROWS: standard input can be read once")]
    OneInput,
    #[error("{0}: can't be read: {1}")]
    Unreadable(FileName, io::Error),
    #[error("{0}:{1}")]
    Flawed(FileName, Flaw),
    #[error("{0}: with its words the buffers would take {1} bytes or more, and the budget is {BUDGET}: give fewer words, here or in --memory, or fewer threads")]
    OverBudget(FileName, u128),
    /// So many threads alone pass the budget.
    #[error("--threads {0}: with no words at all the buffers would take {bytes} bytes, and the budget is {BUDGET}: give fewer threads", bytes = Task::Run(*.0).bytes_needed(Role::Memory, 0))]
    TooMany(u32),
    #[error("the arguments can't be read: {0}: write them in UTF-8")]
    Arguments(io::Error),
    /// What a program does by `?` outside of this crate is to print.
    #[error("the answer can't be written: {0}")]
    Output(#[from] io::Error),
    #[error("there is not enough memory")]
    NoMemory,
}

// By hand, since `NoMemory` holds no error: programs give it too, where words that they lend are too few.
impl From<AllocError> for Fault {
    ghost from_gives = { λ _ f. f ≡ NoMemory };

    fn from(_error: AllocError) -> Fault {
        Fault::NoMemory
    }
}
