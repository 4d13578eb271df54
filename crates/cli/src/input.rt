// The words that a program runs on, read from its files into one buffer.
ghost use Rattle.std.specs.Prelude.{◌≡◌, ℕ, ◌+◌, ◌^◌, ◌<◌, ◌≤◌, false, length, is_ok, IfOk, vec_len};
ghost use Rattle.words.specs.Budget.{bare, needed, besides, besides_rows};
ghost use Rattle.words.specs.declared.budget.Task.TheVariants.{Run};

use crate::fault::{Fault, FileName};
use crate::options::Options;
use std::fs;
use std::io::Read;
use words::budget::{CHUNK, Role, Task};
use words::flaw::Stop;
use words::list::WordList;
use words::scanner::Scanner;

/// A memory, rows, the table of the rows' ends, and what a program works in, one behind the other. The buffer is as large as the
/// budget allows from the start, since one that grows is there twice while its words move. It is one with three lengths beside
/// it, since each of four would have to be as large as all may be.
#[derive(Drop)]
pub struct Input {
    words: Vec<u32>,
    memory: usize,
    rows: usize,
    rest: usize,
    ghost whole: { memory + rows + rows + rest ≡ vec_len words },
}

/// An input in its parts.
#[derive(Drop)]
pub struct Parts<'a> {
    pub memory: &'a mut [u32],
    pub rows: &'a mut [u32],
    /// The table of the rows' ends.
    pub ends: &'a mut [u32],
    /// What a program works in.
    pub rest: &'a mut [u32],
}

/// Reads words behind those in `words`.
fn read_from<S: Read>(source: &mut S, words: &mut WordList) -> Result<(), Stop>
    ensures same_words { words.new.words.ghost_name ≡ words.old.words.ghost_name }
    ensures most { words.new.most ≡ words.old.most }
{
    let mut chunk = [0u8; CHUNK];
    let mut scanner = Scanner::new();
    // So many times and not for ever: each loop is proved to end, and no source promises that it does.
    for _ in 0..u64::MAX {
        let count = source.read(&mut chunk)?;
        if count == 0 {
            break;
        }
        scanner.feed_all(&chunk[0..count], words)?;
    }
    words.keep(scanner.finish()?)
}

fn read_file(rt: &HostRuntime, file: &str, words: &mut WordList) -> Result<(), Stop>
    ensures same_words { words.new.words.ghost_name ≡ words.old.words.ghost_name }
    ensures most { words.new.most ≡ words.old.most }
{
    if file == "-" {
        return read_from(&mut rt.stdin(), words);
    }
    read_from(&mut fs::open(rt, file)?, words)
}

/// Reads the words of a file behind those that are there, as far as the budget has room for them.
pub fn read_words(
    rt: &HostRuntime,
    file: &str,
    task: Task,
    role: Role,
    words: &mut Vec<u32>,
) -> Result<(), Fault>
    ensures within { (n : ℕ) → 0 < n → vec_len words.old + n ≡ vec_len words.new → needed task role n ≤ 4194304 }
{
    let more = task.room(role);
    let mut list = WordList::new(words, 0);
    list.make_room(more);
    let Err(stop) = read_file(rt, file, &mut list) else {
        return Ok(());
    };
    let name = FileName(String::from_str(rt.alloc(), file)?);
    Err(match stop {
        Stop::Flaw(flaw) => Fault::Flawed(name, flaw),
        Stop::Full => Fault::OverBudget(name, task.bytes_needed(role, more.saturating_add(1))),
        Stop::NoMemory(refused) => Fault::from(refused),
        Stop::Unreadable(why) => Fault::Unreadable(name, why),
    })
}

impl Input {
    /// Reads the files that the options name. To run once with threads that pass the budget with no words at all is refused before.
    pub fn read(rt: &HostRuntime, options: &Options, task: Task) -> Result<Input, Fault>
        ensures many { (threads : ℕ) → task ≡ Run threads → 4194304 < bare task → is_ok result ≡ false }
        ensures within { IfOk result (λ i. (0 < i.rows → needed task (Role.Rows i.memory) i.rows ≤ 4194304)) }
        ensures rest { IfOk result (λ i. (i.memory < 2 ^ 32 → i.rows < 2 ^ 32 → i.rest ≡ besides task i.memory + besides_rows task i.rows)) }
    {
        if let Task::Run(threads) = task
            && !task.fits()
        {
            return Err(Fault::TooMany(threads));
        }
        let mut words = Vec::new(rt.alloc());
        words.reserve_exact(task.words_in_all())?;
        if let Some(file) = &options.memory {
            read_words(rt, file.as_str(), task, Role::Memory, &mut words)?;
        }
        let memory = words.len();
        read_words(
            rt,
            options.rows.as_str(),
            task,
            Role::Rows(memory),
            &mut words,
        )?;
        Input::of(words, memory, task)
    }

    /// Sets aside a table of ends for the words behind those of the memory, which are rows, and what the task works in.
    fn of(mut words: Vec<u32>, memory: usize, task: Task) -> Result<Input, Fault>
        ensures memory { IfOk result (λ i. (memory ≤ vec_len words → i.memory ≡ memory)) }
        ensures behind { IfOk result (λ i. (0 < i.rows → (i.memory ≡ memory) × (memory + i.rows ≡ vec_len words))) }
        ensures rows { IfOk result (λ i. i.memory + i.rows ≡ vec_len words) }
        ensures rest { IfOk result (λ i. (i.memory < 2 ^ 32 → i.rows < 2 ^ 32 → i.rest ≡ besides task i.memory + besides_rows task i.rows)) }
    {
        let memory = memory.min(words.len());
        let rows = words.len() - memory;
        let rest = task.words_set_aside(memory, rows);
        let all = words
            .len()
            .checked_add(rows)
            .and_then(|tabled| tabled.checked_add(rest))
            .ok_or(Fault::NoMemory)?;
        words.resize(all, 0)?;
        Ok(Input {
            words,
            memory,
            rows,
            rest,
        })
    }

    /// The memory, the rows, the table of their ends, and the rest.
    pub fn parts(&mut self) -> Parts<'_>
        ensures memory { length result.memory.now ≡ self.old.memory }
        ensures rows { length result.rows.now ≡ self.old.rows }
        ensures ends { length result.ends.now ≡ self.old.rows }
        ensures rest { length result.rest.now ≡ self.old.rest }
    {
        let memory = self.memory;
        let rows = self.rows;
        let (memory, others) = self.words.as_mut_slice().split_at_mut(memory);
        let (rows, others) = others.split_at_mut(rows);
        let (ends, rest) = others.split_at_mut(rows.len());
        Parts {
            memory,
            rows,
            ends,
            rest,
        }
    }
}
