// The call `run` for programs in C and Rust: one exported function over numbers and slices.
//
// It promises what `kernel::run` promises, with the answer as a number and the clash in a slice. C holds
// nobody to pointers that are right: what a caller owes is said in docs/EMBEDDING.md.
#![tactic(auto)]

ghost use Rattle.std.specs.Prelude.{◌≡◌, length};
ghost use Rattle.vinzurkog.specs.Export.{number, with_clash, Exported};

use kernel::{Clash, Ran, run};

// The number of an answer, by hand, since C is answered numbers.
fn number_of(ran: Ran) -> u32
    ensures { result ≡ number ran }
{
    match ran {
        Ran::Even => 0,
        Ran::Uneven(_) => 1,
        Ran::NoKernel => 2,
        Ran::Few => 3,
    }
}

// Who clashes and where, if there is room for it: a caller that doesn't ask lends nothing.
fn tell(clash: &mut [u64], found: Clash)
    ensures { clash.new ≡ with_clash found clash.old }
{
    if clash.len() >= 3 {
        clash[0] = found.first.0 as u64;
        clash[1] = found.second.0 as u64;
        clash[2] = found.place.0 as u64;
    }
}

// Runs the rows by so many threads with so many turns each. The answer is 0 for even, 1 for uneven, 2 where the rows are
// no text, 3 where too little is lent. For 1 the two threads and the place stand first in `clash`.
#[unsafe(no_mangle)]
pub extern "C" fn vinzurkog_run(
    kernel: &[u32],
    threads: u32,
    turns: u32,
    memory: &mut [u32],
    states: &mut [u8],
    work: &mut [u32],
    clash: &mut [u64],
) -> u32
    ensures { Exported kernel.now threads turns memory.old memory.new states.old states.new (length work.old) clash.old clash.new result }
{
    let ran = run(kernel, threads, turns, memory, states, work);
    if let Ran::Uneven(found) = ran {
        tell(clash, found);
    }
    number_of(ran)
}
