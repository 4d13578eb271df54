// A thread in its 1,024 words: its variables from 0 on; then the turns left, the status and the height of
// its stack; and from the middle on the stack of the positions of what it still has to do, the next one last.
// The stack is no `Vec`, and a status a number there, since a thread lies in lent words.
ghost use Rattle.std.specs.Prelude.{◌≡◌, ◌<◌, length, slice_index, slice_set};
ghost use Rattle.machine.specs.Begins.{Begun};
ghost use Rattle.machine.specs.Words.{status_code, status_of, popped, pushed, top_of};

pub use model::Status;

pub const WORDS: usize = 1024;

pub const LEFT: usize = 256;

pub const STATUS: usize = 257;

pub const HEIGHT: usize = 258;

pub const STACK: usize = 512;

// What a thread is at, by its status word. By hand: any other number is taken as the last, so that nothing is refused.
pub fn status_named(word: u32) -> Status
    ensures { result ≡ status_of word }
{
    match word {
        0 => Status::Going,
        1 => Status::Waiting,
        2 => Status::Ended,
        _ => Status::OutOfTurns,
    }
}

pub fn write_status(words: &mut [u32; WORDS], status: Status)
    ensures { words.new ≡ slice_set words.old 257 (status_code status) }
{
    words[STATUS] = status as u32;
}

// The position of what is to be done next. That something is on the stack is asked by each, since a thread that ended has
// nothing there.
pub fn top(words: &[u32; WORDS]) -> usize
    requires filled { 0 < slice_index words.now 258 }
    requires low { slice_index words.now 258 < 512 }
    ensures { result ≡ top_of words.now }
{
    words[STACK + words[HEIGHT] as usize - 1] as usize
}

pub fn pop(words: &mut [u32; WORDS])
    requires { 0 < slice_index words.old 258 }
    ensures { words.new ≡ popped words.old }
{
    words[HEIGHT] -= 1;
}

pub fn push(words: &mut [u32; WORDS], position: u32)
    requires { slice_index words.old 258 < 512 }
    ensures { words.new ≡ pushed words.old position }
{
    let height = words[HEIGHT];
    words[STACK + height as usize] = position;
    words[HEIGHT] = height + 1;
}

// A thread that has its turns, and the text's body to do.
pub fn begin(words: &mut [u32], turns: u32)
    requires { length words.old ≡ 1024 }
    ensures { Begun words.new turns }
{
    let Some(words) = words.as_mut_array() else {
        unreachable!()
    };
    *words = [0; WORDS];
    words[LEFT] = turns;
    push(words, 1);
}
