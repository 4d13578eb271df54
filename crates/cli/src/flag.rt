// The options, by name.
ghost use Rattle.std.specs.Prelude.{◌≡◌, IfSome, Some};
ghost use Rattle.cli.specs.Options.{spelled};

use std::fmt;

#[derive(Clone, Copy, Debug, PartialEq)]
pub enum Flag {
    Threads,
    Turns,
    Memory,
    Seed,
    Orders,
    Texts,
    Quiet,
}

/// The option that a word names.
// The names stand here and in `Display`: with one list of them that is searched the clause `each` was not proved.
pub fn flag_of(word: &str) -> Option<Flag>
    ensures only { IfSome result (λ f. word.now ≡ spelled f) }
    ensures each { (f : Flag) → word.now ≡ spelled f → result ≡ Some f }
{
    match word {
        "--threads" => Some(Flag::Threads),
        "--turns" => Some(Flag::Turns),
        "--memory" => Some(Flag::Memory),
        "--seed" => Some(Flag::Seed),
        "--orders" => Some(Flag::Orders),
        "--texts" => Some(Flag::Texts),
        "--quiet" => Some(Flag::Quiet),
        _ => None,
    }
}

impl fmt::Display for Flag {
    fn fmt<W: fmt::Write>(&self, f: &mut fmt::Formatter<W>) -> fmt::Result {
        f.write_str(match *self {
            Flag::Threads => "--threads",
            Flag::Turns => "--turns",
            Flag::Memory => "--memory",
            Flag::Seed => "--seed",
            Flag::Orders => "--orders",
            Flag::Texts => "--texts",
            Flag::Quiet => "--quiet",
        })
    }
}
