// What each thread is at, as a number for each: it goes (0), waits (1), has ended (2) or is out of turns (3).
ghost use Rattle.std.specs.Prelude.{◌≡◌, ◌≤◌, length};
ghost use Rattle.machine.specs.Words.{status_code};
ghost use Rattle.kernel.specs.Ran.{Written};

use machine::{Engine, Status};
use model::ThreadId;

// C is handed a byte for each thread, so a status goes out as its number.
fn code(status: Status) -> u8
    ensures { result ≡ status_code status }
{
    status as u8
}

// The numbers of the threads, in the first places.
pub fn write_states(engine: &Engine, states: &mut [u8])
    requires places { engine.now.threads ≤ length states.old }
    ensures { Written engine.now.work.now engine.now.threads states.old states.new }
{
    for (j, state) in states[..engine.threads as usize].iter_mut().enumerate() {
        *state = code(engine.status_of(ThreadId(j as u32)));
    }
}
