// The tests of the crates words and cli. They stand apart, since a crate with tests is proved once more for them.
#![tactic(auto)]

ghost use Rattle.std.specs.Prelude.{◌≤◌, vec_len};

use cli::fault::{Fault, FileName};
use cli::flag::Flag;
use cli::input::{Input, read_words};
use cli::options::{Options, Trial, read_options};
use std::alloc::{AllocError, Global};
use std::io;
use words::budget::{Role, Task};
use words::flaw::Stop;
use words::list::WordList;
use words::scanner::Scanner;

/// Reads a text as it would come from a file, a few bytes at a time.
pub fn scan(text: &str, words: &mut Vec<u32>, most: usize) -> Result<(), Stop>
    ensures { vec_len words.old ≤ most → vec_len words.new ≤ most }
{
    let mut list = WordList::new(words, most);
    let mut scanner = Scanner::new();
    for piece in text.as_bytes().chunks(3) {
        scanner.feed_all(piece, &mut list)?;
    }
    let last = scanner.finish()?;
    list.keep(last)
}

/// Reads as many blocks of blanks.
pub fn scan_blanks(blocks: u32, words: &mut Vec<u32>) -> Result<(), Stop> {
    let blanks = [b' '; 4096];
    let mut list = WordList::new(words, 0);
    let mut scanner = Scanner::new();
    for _ in 0..blocks {
        scanner.feed_all(&blanks, &mut list)?;
    }
    list.keep(scanner.finish()?)
}

/// The words of a text, or what is wrong with it.
pub fn scanned(heap: Global, text: &str) -> Result<String, AllocError> {
    let mut words = Vec::new(heap);
    let read = scan(text, &mut words, 4);
    told(heap, read, &words)
}

/// What came of words that were read.
pub fn told(heap: Global, read: Result<(), Stop>, words: &Vec<u32>) -> Result<String, AllocError> {
    let Err(stop) = read else {
        return format!(in heap; "{words:?}");
    };
    match stop {
        Stop::Flaw(flaw) => format!(in heap; "{flaw}"),
        Stop::Full => format!(in heap; "full with {words:?}"),
        _ => format!(in heap; "no memory"),
    }
}

/// The words of a line.
fn words_of(heap: Global, line: &str) -> Result<Vec<String>, AllocError> {
    line.split_whitespace()
        .map(|word| String::from_str(heap, word))
        .try_collect(heap)
}

/// What the arguments in a line ask for, or what is wrong with them.
pub fn asked(heap: Global, line: &str) -> Result<String, AllocError> {
    asked_of(heap, line, &[Flag::Threads, Flag::Turns, Flag::Memory])
}

/// .. of a program that allows these options.
pub fn asked_of(heap: Global, line: &str, allowed: &[Flag]) -> Result<String, AllocError> {
    match read_options::<Options>(words_of(heap, line)?.into_iter(), allowed) {
        Ok(None) => format!(in heap; "help"),
        Ok(Some(options)) => {
            let threads = options.threads;
            let turns = options.turns;
            let memory = &options.memory;
            let rows = &options.rows;
            let quiet = if options.quiet { " quiet" } else { "" };
            format!(in heap; "{threads} {turns} {memory:?} {rows}{quiet}")
        }
        Err(fault) => format!(in heap; "{fault}"),
    }
}

/// .. of a program that reads no file.
pub fn asked_without_file(heap: Global, line: &str) -> Result<String, AllocError> {
    match read_options::<Trial>(
        words_of(heap, line)?.into_iter(),
        &[Flag::Texts, Flag::Seed],
    ) {
        Ok(None) => format!(in heap; "help"),
        Ok(Some(trial)) => { format!(in heap; "{} {}", trial.texts, trial.seed) }
        Err(fault) => format!(in heap; "{fault}"),
    }
}

/// Why a task has no input, where its rows are in a file that isn't there.
pub fn refused(rt: &HostRuntime, task: Task) -> Result<String, AllocError> {
    let heap = rt.alloc();
    let options = Options {
        threads: 1,
        turns: 1,
        memory: None,
        seed: 1,
        orders: 1,
        texts: 1,
        quiet: false,
        rows: String::from_str(heap, "no-such-file")?,
    };
    match Input::read(rt, &options, task) {
        Ok(_) => format!(in heap; "it has"),
        Err(fault) => format!(in heap; "{fault}"),
    }
}

#[cfg(test)]
mod tests {
    use super::*;
    use std::test::Fail;

    #[test]
    fn words_and_comments(rt: HostRuntime) -> Result<(), Fail> {
        let heap = rt.alloc();
        for (text, told) in [
            ("", "[]"),
            (" \t\r\n\n", "[]"),
            ("# none", "[]"),
            ("7", "[7]"),
            ("12 345\t6\r\n0", "[12, 345, 6, 0]"),
            ("1# two # three\n4", "[1, 4]"),
            (
                "4294967295 0000000000000000000000000000000001",
                "[4294967295, 1]",
            ),
        ] {
            assert_eq!(rt; scanned(heap, text)?.as_str(), told);
        }
        Ok(())
    }

    #[test]
    fn flaws(rt: HostRuntime) -> Result<(), Fail> {
        let heap = rt.alloc();
        for (text, told) in [
            (
                "1 2\n3 4 5x 6",
                "2:5: '5x' is no number from 0 to 4294967295",
            ),
            (
                "4294967296",
                "1:1: '4294967296' is no number from 0 to 4294967295",
            ),
            (
                "# one\r\n\t-1",
                "2:2: '-1' is no number from 0 to 4294967295",
            ),
            (
                "0 é\u{1b}[m#",
                "1:3: '???[m' is no number from 0 to 4294967295",
            ),
            (
                "a23456789b123456789c12345",
                "1:1: 'a23456789b123456789c1234..' is no number from 0 to 4294967295",
            ),
            ("1 2 3 4 5", "full with [1, 2, 3, 4]"),
        ] {
            assert_eq!(rt; scanned(heap, text)?.as_str(), told);
        }
        Ok(())
    }

    #[test]
    fn endless(rt: HostRuntime) -> Result<(), Fail> {
        let heap = rt.alloc();
        let mut words = Vec::new(heap);
        for (blocks, answer) in [
            (16384, "[]"),
            (
                16385,
                "1:67108865: longer than 67108864 bytes, and no more are read: give a shorter file",
            ),
        ] {
            let read = scan_blanks(blocks, &mut words);
            assert_eq!(rt; told(heap, read, &words)?.as_str(), answer);
        }
        Ok(())
    }

    #[test]
    fn arguments(rt: HostRuntime) -> Result<(), Fail> {
        let heap = rt.alloc();
        for (line, told) in [
            ("a", "1 1000 None a"),
            ("--threads 2 - --turns 4294967295", "2 4294967295 None -"),
            ("--memory - --turns 0 a", "1 0 Some(\"-\") a"),
            ("a --help", "help"),
            (
                "--thread 2 a",
                "unknown option '--thread': --help lists the options",
            ),
            (
                "--seed 2 a",
                "unknown option '--seed': --help lists the options",
            ),
            ("a --turns", "--turns has no value: write one behind it"),
            (
                "--memory --turns 2 a",
                "--memory has no value: write one behind it",
            ),
            (
                "--turns 4294967296 a",
                "--turns: '4294967296' is no number from 0 to 4294967295",
            ),
            (
                "--threads +1 a",
                "--threads: '+1' is no number from 0 to 4294967295",
            ),
            (
                "--memory a --memory a b",
                "--memory is given twice: give it once",
            ),
            (
                "--threads 2",
                "no ROWS: name the file of the rows, or - for standard input",
            ),
            ("a --turns 2 b", "'b' is a second ROWS: name one file"),
            (
                "- --memory -",
                "- is both --memory and ROWS: standard input can be read once",
            ),
        ] {
            assert_eq!(rt; asked(heap, line)?.as_str(), told);
        }
        Ok(())
    }

    #[test]
    fn arguments_with_quiet(rt: HostRuntime) -> Result<(), Fail> {
        let heap = rt.alloc();
        let allowed = [Flag::Threads, Flag::Turns, Flag::Memory, Flag::Quiet];
        for (line, told) in [
            ("a", "1 1000 None a"),
            ("--quiet a --turns 2", "1 2 None a quiet"),
            (
                "--turns --quiet a",
                "--turns has no value: write one behind it",
            ),
            ("--quiet a --quiet", "--quiet is given twice: give it once"),
        ] {
            assert_eq!(rt; asked_of(heap, line, &allowed)?.as_str(), told);
        }
        Ok(())
    }

    #[test]
    fn arguments_without_file(rt: HostRuntime) -> Result<(), Fail> {
        let heap = rt.alloc();
        for (line, told) in [
            ("", "500 1"),
            ("--seed 7 --texts 2", "2 7"),
            (
                "--texts two",
                "--texts: 'two' is no number from 0 to 4294967295",
            ),
            (
                "--texts 2 a",
                "'a' is no option, and no file is read: --help lists the options",
            ),
            ("a --help", "help"),
        ] {
            assert_eq!(rt; asked_without_file(heap, line)?.as_str(), told);
        }
        Ok(())
    }

    #[test]
    fn files(rt: HostRuntime) -> Result<(), Fail> {
        let heap = rt.alloc();
        let mut words = Vec::new(heap);
        let Err(fault) = read_words(&rt, "no\tsuch", Task::Read, Role::Memory, &mut words) else {
            return Err(Fail::new("there is such a file"));
        };
        assert_eq!(rt;
            format!(in heap; "{fault}")?.as_str(),
            "no?such: can't be read: No such file or directory (os error 2)"
        );
        let name = FileName(String::from_str(heap, "-")?);
        let most = Task::Read.room(Role::Rows(1000));
        let over = Fault::OverBudget(
            name,
            Task::Read.bytes_needed(Role::Rows(1000), most.saturating_add(1)),
        );
        assert_eq!(rt; most, 523276);
        let told =
            "standard input: with its words the buffers would take 4194312 bytes or more, and the budget is 4194304: give fewer words, here or in --memory, or fewer threads";
        assert_eq!(rt; format!(in heap; "{over}")?.as_str(), told);
        Ok(())
    }

    /// The messages that no other test brings about.
    #[test]
    fn faults(rt: HostRuntime) -> Result<(), Fail> {
        let heap = rt.alloc();
        for (fault, told) in [
            (
                Fault::Arguments(io::Error::from(io::ErrorKind::InvalidData)),
                "the arguments can't be read: invalid data: write them in UTF-8",
            ),
            (
                Fault::from(io::Error::from(io::ErrorKind::BrokenPipe)),
                "the answer can't be written: broken pipe",
            ),
            (Fault::from(AllocError), "there is not enough memory"),
        ] {
            assert_eq!(rt; format!(in heap; "{fault}")?.as_str(), told);
        }
        Ok(())
    }

    /// The room of a program that runs its rows once.
    #[test]
    fn room_to_run(rt: HostRuntime) -> Result<(), Fail> {
        let heap = rt.alloc();
        let name = FileName(String::from_str(heap, "-")?);
        let most = Task::Run(2).room(Role::Rows(1000));
        let over = Fault::OverBudget(
            name,
            Task::Run(2).bytes_needed(Role::Rows(1000), most.saturating_add(1)),
        );
        assert_eq!(rt; most, 103640);
        let told =
            "standard input: with its words the buffers would take 4194314 bytes or more, and the budget is 4194304: give fewer words, here or in --memory, or fewer threads";
        assert_eq!(rt; format!(in heap; "{over}")?.as_str(), told);
        Ok(())
    }

    /// A run that passes the budget with no words at all is refused before its files are read, and orders are not.
    #[test]
    fn budgets(rt: HostRuntime) -> Result<(), Fail> {
        for (task, told) in [
            (
                Task::Run(1018),
                "no-such-file: can't be read: No such file or directory (os error 2)",
            ),
            (
                Task::Run(1019),
                "--threads 1019: with no words at all the buffers would take 4195323 bytes, and the budget is 4194304: give fewer threads",
            ),
            (
                Task::Orders(1022, 2044),
                "no-such-file: can't be read: No such file or directory (os error 2)",
            ),
            (
                Task::Orders(1022, 2045),
                "no-such-file: can't be read: No such file or directory (os error 2)",
            ),
        ] {
            assert_eq!(rt; refused(&rt, task)?.as_str(), told);
        }
        Ok(())
    }
}
