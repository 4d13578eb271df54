// Why the bytes of a file are no words.
use crate::quote::Quote;
use crate::scan::Spot;
use crate::scanner::LONGEST;
use std::alloc::AllocError;
use std::io;
use thiserror::Error;

#[derive(Clone, Copy, Debug, Error)]
pub enum Flaw {
    #[error("{0}: '{1}' is no number from 0 to 4294967295")]
    NoNumber(Spot, Quote),
    #[error("{0}: longer than {LONGEST} bytes, and no more are read: give a shorter file")]
    TooLong(Spot),
}

/// Why the reading of words stops before the bytes end.
#[derive(Debug, Drop, Error)]
pub enum Stop {
    #[error(transparent)]
    Flaw(#[from] Flaw),
    #[error("there is no room for one word more")]
    Full,
    #[error(transparent)]
    NoMemory(#[from(alloc)] AllocError),
    #[error(transparent)]
    Unreadable(#[from] io::Error),
}
