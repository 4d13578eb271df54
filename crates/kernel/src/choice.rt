// The thread that takes the next step.
ghost use Rattle.std.specs.Prelude.{◌*◌, ◌≤◌, length};
ghost use Rattle.kernel.specs.Choice.{First, Next};

use machine::thread::{STATUS, WORDS};
use machine::{Engine, Status};
use model::ThreadId;

// The first thread that is going, of those from `from` on and below `to`. With `find` over the range the proof didn't close: it
// told nothing of the threads that it passes.
fn first_going(work: &[u32], from: u32, to: u32) -> Option<ThreadId>
    requires order { from ≤ to }
    requires room { 1024 * to ≤ length work.now }
    ensures { First work.now from to result }
{
    'threads: for j in from..to {
        if work[WORDS * j as usize + STATUS] == Status::Going as u32 {
            return Some(ThreadId(j));
        }
    }
    None
}

// The first thread that is going from `from` on, where the first thread follows the last one. So each thread
// that is going can be the next.
pub fn next_going(work: &[u32], threads: u32, from: u32) -> Option<ThreadId>
    requires order { from ≤ threads }
    requires room { 1024 * threads ≤ length work.now }
    ensures { Next work.now from threads result }
{
    match first_going(work, from, threads) {
        Some(thread) => Some(thread),
        None => first_going(work, 0, from),
    }
}

// .. of an engine's threads. The one above stays for a caller that has words alone.
pub fn next_of(engine: &Engine, from: u32) -> Option<ThreadId>
    requires { from ≤ engine.now.threads }
    ensures { Next engine.now.work.now from engine.now.threads result }
{
    next_going(engine.work, engine.threads, from)
}
