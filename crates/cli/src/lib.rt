// What the programs share: their options, the words that they run on, and how they begin and end.
//
// Proved: how options are spelled and which take a value (specs/Options.antt), the numbers that they take and the values that
// they have where they aren't given, how the buffer is parted, and that a program ends well exactly where its answer is yes.
// That the files are read as the crate words says, and messages, are only tested.
#![tactic(auto)]

pub mod fault;
pub mod flag;
pub mod input;
pub mod options;
pub mod program;
