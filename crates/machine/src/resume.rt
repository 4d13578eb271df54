// All that wait go on in one pass, where the caller knows that no thread is going.
ghost use Rattle.std.specs.Prelude.{◌≡◌, ◌*◌, ◌≤◌, ◌↔◌, length, IsTrue};
ghost use Rattle.machine.specs.Together.{released_words, Resumed};

use crate::thread::{STATUS, Status, WORDS};

// Whether the thread with this status word waits.
fn waits(status: u32) -> bool
    ensures { IsTrue result ↔ status ≡ 1 }
{
    status == Status::Waiting as u32
}

// All that wait go on, and whether any did. That is a step where no thread is going, which the caller has to know.
pub fn resume_all(work: &mut [u32], threads: u32) -> bool
    requires { 1024 * threads ≤ length work.old }
    ensures words { work.new ≡ released_words threads work.old }
    ensures resumed { Resumed work.old work.new threads result }
{
    let mut some = false;

    // By an index, since nothing is known of what a slice ends as once its chunks were lent to be written. The way out of
    // a turn is labelled for speed: `if let` without it took three times as long where no thread waits.
    'threads: for j in 0..threads as usize {
        let at = WORDS * j + STATUS;
        if !waits(work[at]) {
            continue 'threads;
        }
        work[at] = Status::Going as u32;
        some = true;
    }
    some
}
