// What a program is asked to do, read from its arguments.
ghost use Rattle.std.specs.Prelude.{◌≡◌, ◌+◌, ◌≤◌, ◌∷◌, true, false, not, is_some, is_ok, IfOk, None, Some, Ok, OnOk};
ghost use Rattle.std.specs.Vec.Iter.{into_iter_items, into_iter_len};
ghost use Rattle.std.specs.Option.{unwrap_or};
ghost use Rattle.cli.specs.Options.{valued};
ghost use Rattle.words.specs.Scan.{numeral};

use crate::fault::Fault;
use crate::flag::{Flag, flag_of};
use std::env;
use std::env::Args;
use words::quote::Quote;
use words::scan::number;

/// What a program runs on. Where an option isn't given, it has the value that `--help` names.
#[derive(Drop)]
pub struct Options {
    pub threads: u32,
    pub turns: u32,
    pub memory: Option<String>,
    pub seed: u32,
    pub orders: u32,
    pub texts: u32,
    pub quiet: bool,
    pub rows: String,
}

/// What a program runs on that reads no file.
#[derive(Clone, Copy)]
pub struct Trial {
    pub texts: u32,
    pub seed: u32,
}

/// The arguments so far.
#[derive(Default, Drop)]
pub struct Given {
    help: bool,
    threads: Option<u32>,
    turns: Option<u32>,
    memory: Option<String>,
    seed: Option<u32>,
    orders: Option<u32>,
    texts: Option<u32>,
    quiet: Option<bool>,
    rows: Option<String>,
}

/// The value of an option that takes a number.
pub fn count(flag: Flag, value: &str) -> Result<u32, Fault>
    ensures value { IfOk result (λ n. numeral value.now ≡ Some n) }
    ensures test { is_ok result ≡ is_some (numeral value.now) }
{
    number(value.as_bytes()).ok_or_else(|| Fault::NoNumber(flag, Quote::of(value)))
}

/// Fills a slot once.
fn put<T: Drop>(slot: &mut Option<T>, flag: Flag, value: T) -> Result<(), Fault>
    ensures after { OnOk result (slot.new ≡ Some value) }
    ensures test { is_ok result ≡ not (is_some slot.old) }
{
    if slot.is_some() {
        return Err(Fault::Twice(flag));
    }
    *slot = Some(value);
    Ok(())
}

/// The value of an option, which is the word behind it.
fn value_of(flag: Flag, words: &mut Args) -> Result<String, Fault>
    ensures value { IfOk result (λ v. into_iter_items words.old ≡ v ∷ into_iter_items words.new) }
    ensures taken { OnOk result (into_iter_len words.new + 1 ≡ into_iter_len words.old) }
    ensures fewer { into_iter_len words.new ≤ into_iter_len words.old }
{
    match words.next() {
        Some(value) if !value.as_str().starts_with("--") => Ok(value),
        _ => Err(Fault::NoValue(flag)),
    }
}

fn count_of(flag: Flag, words: &mut Args) -> Result<u32, Fault>
    ensures taken { OnOk result (into_iter_len words.new + 1 ≡ into_iter_len words.old) }
    ensures fewer { into_iter_len words.new ≤ into_iter_len words.old }
{
    count(flag, value_of(flag, words)?.as_str())
}

impl Given {
    /// Takes an option, and the word behind it where it has a value. Each has a slot, of three types, so there is no table of them.
    fn option(&mut self, flag: Flag, words: &mut Args) -> Result<(), Fault>
        ensures valued { valued flag ≡ true → OnOk result (into_iter_len words.new + 1 ≡ into_iter_len words.old) }
        ensures plain { valued flag ≡ false → into_iter_items words.new ≡ into_iter_items words.old }
        ensures fewer { into_iter_len words.new ≤ into_iter_len words.old }
        ensures quiet { flag ≡ Flag.Quiet → OnOk result (self.new.quiet ≡ Some true) }
        ensures twice { flag ≡ Flag.Quiet → is_ok result ≡ not (is_some self.old.quiet) }
    {
        match flag {
            Flag::Threads => put(&mut self.threads, flag, count_of(flag, words)?),
            Flag::Turns => put(&mut self.turns, flag, count_of(flag, words)?),
            Flag::Memory => put(&mut self.memory, flag, value_of(flag, words)?),
            Flag::Seed => put(&mut self.seed, flag, count_of(flag, words)?),
            Flag::Orders => put(&mut self.orders, flag, count_of(flag, words)?),
            Flag::Texts => put(&mut self.texts, flag, count_of(flag, words)?),
            Flag::Quiet => put(&mut self.quiet, flag, true),
        }
    }

    /// Takes a word, and the one behind it where it is an option with a value.
    fn take(&mut self, word: String, words: &mut Args, allowed: &[Flag]) -> Result<(), Fault>
        ensures { into_iter_len words.new ≤ into_iter_len words.old }
    {
        let text = word.as_str();
        if text == "--help" {
            self.help = true;
            return Ok(());
        }
        if text != "-" && text.starts_with("-") {
            return match flag_of(text) {
                Some(flag) if allowed.contains(&flag) => self.option(flag, words),
                _ => Err(Fault::UnknownOption(Quote::of(text))),
            };
        }
        if self.rows.is_some() {
            return Err(Fault::TwoRows(Quote::of(text)));
        }
        self.rows = Some(word);
        Ok(())
    }

    /// Reads all words, of which a program takes the options that it allows.
    fn read(mut words: Args, allowed: &[Flag]) -> Result<Given, Fault> {
        let mut given = Given::default();
        while let Some(word) = words.next() {
            given.take(word, &mut words, allowed)?;
        }
        Ok(given)
    }
}

/// What a program can be asked for by its arguments.
pub trait Asked: Drop {
    /// What was asked for, once all arguments are read: nothing where that is help.
    fn asked(given: Given) -> Result<Option<Self>, Fault>
        ensures help { given.help ≡ true → result ≡ Ok None }
        ensures run { given.help ≡ false → IfOk result (λ o. is_some o ≡ true) };
}

impl Asked for Options {
    fn asked(given: Given) -> Result<Option<Options>, Fault>
        ensures help { given.help ≡ true → result ≡ Ok None }
        ensures run { IfOk result (λ c. elim c [ None ↦ given.help ≡ true | Some o ↦ (o.threads ≡ unwrap_or given.threads 1) × (o.turns ≡ unwrap_or given.turns 1000) × (o.memory ≡ given.memory) × (o.seed ≡ unwrap_or given.seed 1) × (o.orders ≡ unwrap_or given.orders 20) × (given.rows ≡ Some o.rows) ]) }
        ensures more { IfOk result (λ c. elim c [ None ↦ given.help ≡ true | Some o ↦ (o.texts ≡ unwrap_or given.texts 500) × (o.quiet ≡ unwrap_or given.quiet false) ]) }
        ensures test { given.help ≡ false → given.memory ≡ None → is_ok result ≡ is_some given.rows }
    {
        let Given {
            help,
            threads,
            turns,
            memory,
            seed,
            orders,
            texts,
            quiet,
            rows,
        } = given;
        if help {
            return Ok(None);
        }
        let Some(rows) = rows else {
            return Err(Fault::NoRows);
        };
        if is_stdin(&memory) && rows.as_str() == "-" {
            return Err(Fault::OneInput);
        }
        Ok(Some(Options {
            threads: threads.unwrap_or(1),
            turns: turns.unwrap_or(1000),
            memory,
            seed: seed.unwrap_or(1),
            orders: orders.unwrap_or(20),
            texts: texts.unwrap_or(500),
            quiet: quiet.unwrap_or(false),
            rows,
        }))
    }
}

/// A program that reads no file.
impl Asked for Trial {
    fn asked(given: Given) -> Result<Option<Trial>, Fault>
        ensures help { given.help ≡ true → result ≡ Ok None }
        ensures run { IfOk result (λ o. elim o [ None ↦ given.help ≡ true | Some t ↦ (t.texts ≡ unwrap_or given.texts 500) × (t.seed ≡ unwrap_or given.seed 1) ]) }
        ensures test { given.help ≡ false → is_ok result ≡ not (is_some given.rows) }
    {
        if given.help {
            return Ok(None);
        }
        no_file(&given.rows)?;
        Ok(Some(Trial {
            texts: given.texts.unwrap_or(500),
            seed: given.seed.unwrap_or(1),
        }))
    }
}

/// Refuses a file, for a program that takes none.
fn no_file(rows: &Option<String>) -> Result<(), Fault>
    ensures { is_ok result ≡ not (is_some rows.now) }
{
    match rows {
        Some(file) => Err(Fault::NoFile(Quote::of(file.as_str()))),
        None => Ok(()),
    }
}

fn is_stdin(file: &Option<String>) -> bool
    ensures { file.now ≡ None → result ≡ false }
{
    file.as_ref().is_some_and(|name| name.as_str() == "-")
}

/// Reads the arguments behind the program's own name: nothing where they ask for help. A program takes the options that it allows.
pub fn read_options<T: Asked>(words: Args, allowed: &[Flag]) -> Result<Option<T>, Fault> {
    T::asked(Given::read(words, allowed)?)
}

/// Reads a program's own arguments.
pub fn read_arguments<T: Asked>(rt: &HostRuntime, allowed: &[Flag]) -> Result<Option<T>, Fault> {
    let mut words = env::args(rt).map_err(Fault::Arguments)?;
    let _program = words.next();
    read_options(words, allowed)
}
