// The step of all that wait: where no thread is going, they go on together.
ghost use Rattle.std.specs.Prelude.{◌≡◌, ◌*◌, ◌≤◌, length};
ghost use Rattle.machine.specs.Together.{released_words, Looked, Release};

use crate::thread::{STATUS, Status, WORDS, status_named};

// Which threads went on: nobody, since one is still going; those that waited; or nobody, since all stopped.
#[derive(Clone, Copy)]
pub enum Released {
    Nobody,
    Waiting,
    End,
}

// What there is to release.
fn look(work: &[u32], threads: u32) -> Released
    requires { 1024 * threads ≤ length work.now }
    ensures { Looked work.now threads result }
{
    let of_each = &work.as_chunks::<WORDS>().0[..threads as usize];
    let mut found = Released::End;
    'threads: for words in of_each {
        match status_named(words[STATUS]) {
            Status::Going => return Released::Nobody,
            Status::Waiting => found = Released::Waiting,
            Status::Ended => {}
            Status::OutOfTurns => {}
        }
    }
    found
}

// All that wait go on. It is no call of `resume_all`, so that a drawn order, which releases, and `run`, which resumes, share no pass.
fn release(work: &mut [u32], threads: u32)
    requires { 1024 * threads ≤ length work.old }
    ensures { work.new ≡ released_words threads work.old }
{
    for j in 0..threads as usize {
        if work[WORDS * j + STATUS] == Status::Waiting as u32 {
            work[WORDS * j + STATUS] = Status::Going as u32;
        }
    }
}

// All that wait go on, if no thread is going and some wait. It asks for the words alone, and so do `begin_all`, `status_of` and
// `resume_all`, so that a caller needs no engine for it; the engine's methods call them.
pub fn release_all(work: &mut [u32], threads: u32) -> Released
    requires { 1024 * threads ≤ length work.old }
    ensures { Release work.old work.new threads result }
{
    let found = look(work, threads);
    if let Released::Waiting = found {
        release(work, threads);
    }
    found
}
