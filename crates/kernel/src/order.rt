// One order, step by step to its end.
// Engine and watch go side by side: of a struct that holds both nothing is known of what the lent words end as. For that
// reason `SomeRun`, which speaks of both, is asked by each function and is no invariant.
ghost use Rattle.std.specs.Prelude.{◌≡◌, ◌<◌, ◌≤◌, length};
ghost use Rattle.machine.specs.Engines.{Stays};
ghost use Rattle.machine.specs.Stands.{source};
ghost use Rattle.machine.specs.Together.{status_at};
ghost use Rattle.ledger.specs.Runs.{ledger_words};
ghost use Rattle.kernel.specs.Watching.{told_in};
ghost use Rattle.kernel.specs.Order.{SomeRun, WentOn, Turned, Played};
ghost use Rattle.kernel.specs.Ran.{SomeText, OrderPost};

use crate::choice::next_of;
use crate::draw::Draw;
use crate::states::write_states;
use crate::watch::Watch;
use machine::{Engine, Released};
use model::ThreadId;

// A thread that is going takes a step, and what it touched is noted.
fn advance(engine: &mut Engine, watch: &mut Watch, marks: &mut [u32], thread: ThreadId)
    requires some { SomeRun engine.old (told_in watch.old marks.old) }
    requires within { thread.0 < engine.old.threads }
    requires goes { status_at engine.old.work.now thread.0 ≡ 0 }
    ensures on { WentOn engine.old (told_in watch.old marks.old) engine.new (told_in watch.new marks.new) }
    ensures stays { Stays engine.old engine.new }
{
    let touch = engine.step(thread);
    *watch = watch.noted(marks, thread, touch);
}

// A drawn thread takes a step, or, where none is going, all that wait go on, and the order with it; nothing at an end. They go on by
// `release`, which looks at all threads itself. `run` and `lead` go on by `resume`, and `trial` holds the two to each other.
fn turn(engine: &mut Engine, watch: &mut Watch, marks: &mut [u32], draw: &mut Draw) -> bool
    requires { SomeRun engine.old (told_in watch.old marks.old) }
    ensures turned { Turned engine.old (told_in watch.old marks.old) engine.new (told_in watch.new marks.new) result }
    ensures stays { Stays engine.old engine.new }
{
    let from = draw.below(engine.threads);
    if let Some(thread) = next_of(engine, from) {
        advance(engine, watch, marks, thread);
        return true;
    }
    match engine.release() {
        Released::Waiting => {
            *watch = watch.resumed(marks);
            true
        }
        Released::Nobody | Released::End => false,
    }
}

// The order is carried on to an end.
fn play(engine: &mut Engine, watch: &mut Watch, marks: &mut [u32], draw: &mut Draw)
    requires { SomeRun engine.old (told_in watch.old marks.old) }
    ensures played { Played engine.old (told_in watch.old marks.old) engine.new (told_in watch.new marks.new) }
    ensures stays { Stays engine.old engine.new }
{
    'order: while turn(engine, watch, marks, draw) {}
}

// One order of the text, from the begin to its end, with each next thread drawn: what it leaves in the memory,
// what each thread is at, and whether two threads clashed on the way.
pub fn run_order(
    engine: &mut Engine,
    turns: u32,
    marks: &mut [u32],
    states: &mut [u8],
    draw: &mut Draw,
) -> bool
    requires text { SomeText (source engine.old.script.now) }
    requires room { ledger_words (length engine.old.memory.now) ≤ length marks.old }
    requires places { engine.old.threads ≤ length states.old }
    ensures order { OrderPost (source engine.old.script.now).rows engine.old.threads turns engine.old.memory.now engine.new.memory.now states.old states.new result }
    ensures stays { Stays engine.old engine.new }
{
    engine.begin(turns);
    let mut watch = Watch::open(marks);
    play(engine, &mut watch, marks, draw);
    write_states(engine, states);
    watch.clashed()
}
