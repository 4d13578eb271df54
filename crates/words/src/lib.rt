// Words in decimal, read from the bytes of a file, and how many of them a program has room for.
//
// Proved: what each byte does (specs/Scan.antt), that words which are written in decimal, one to a line, are read back
// (specs/Listing.antt), where in the file a flaw stands, and the bytes that buffers take (specs/Budget.antt). Messages are
// only tested.
#![tactic(auto)]

pub mod budget;
pub mod flaw;
pub mod list;
pub mod quote;
pub mod scan;
pub mod scanner;
