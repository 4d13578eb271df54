// The one order that `run` goes through: threads go one after the other, each until it waits or stops.
// Engine and ledger go side by side: of a struct that holds both nothing is known of what the lent words end as. For that
// reason `SomeInTurn`, which speaks of both, is asked by each function and is no invariant.
ghost use Rattle.std.specs.Prelude.{◌≡◌, ◌+◌, ◌*◌, ◌<◌, ◌≤◌, ◌↔◌, length, IsTrue, MatchResult};
ghost use Rattle.machine.specs.Engines.{Stays};
ghost use Rattle.machine.specs.Stands.{source};
ghost use Rattle.machine.specs.Together.{status_at};
ghost use Rattle.ledger.specs.Lent.{notes_in, SameMarks};
ghost use Rattle.ledger.specs.Runs.{ledger_words};
ghost use Rattle.kernel.specs.Held.{left};
ghost use Rattle.kernel.specs.Sequence.{SomeInTurn, GoesOn, CameToEnd, CameToClash, RunsToEnd, RunsToClash};
ghost use Rattle.kernel.specs.Ran.{SomeText};

use crate::noted::step_noted;
use ledger::Ledger;
use machine::Engine;
use model::{Clash, ThreadId};

// Whether a thread takes steps: one that has stopped is not waited for.
fn goes(engine: &Engine, thread: ThreadId) -> bool
    requires { 1024 * thread.0 + 1024 ≤ length engine.now.work.now }
    ensures { IsTrue result ↔ status_at engine.now.work.now thread.0 ≡ 0 }
{
    engine.is_going(thread)
}

// A thread goes on until it waits or stops.
fn run_thread(engine: &mut Engine, ledger: &mut Ledger, thread: ThreadId) -> Result<(), Clash>
    requires some { SomeInTurn engine.old (notes_in ledger.old) thread.0 }
    requires within { thread.0 < engine.old.threads }
    ensures on { GoesOn engine.old (notes_in ledger.old) thread.0 engine.new (notes_in ledger.new) (thread.0 + 1) result }
    ensures lighter { left engine.new ≤ left engine.old }
    ensures stays { Stays engine.old engine.new }
    ensures same_marks { SameMarks ledger.old ledger.new }
{
    'steps: while goes(engine, thread) {
        step_noted(engine, ledger, thread)?;
    }
    Ok(())
}

// Each thread in its turn goes on until it waits or stops.
fn run_stretch(engine: &mut Engine, ledger: &mut Ledger) -> Result<(), Clash>
    requires { SomeInTurn engine.old (notes_in ledger.old) 0 }
    ensures on { GoesOn engine.old (notes_in ledger.old) 0 engine.new (notes_in ledger.new) engine.new.threads result }
    ensures lighter { left engine.new ≤ left engine.old }
    ensures stays { Stays engine.old engine.new }
    ensures same_marks { SameMarks ledger.old ledger.new }
{
    'threads: for j in 0..engine.threads {
        run_thread(engine, ledger, ThreadId(j))?;
    }
    Ok(())
}

// Stretch by stretch, until nobody waits.
fn run_stretches(engine: &mut Engine, ledger: &mut Ledger) -> Result<(), Clash>
    requires { SomeInTurn engine.old (notes_in ledger.old) 0 }
    ensures came { MatchResult result (λ _. CameToEnd engine.old (notes_in ledger.old) engine.new) (CameToClash engine.old (notes_in ledger.old) 0) }
    ensures stays { Stays engine.old engine.new }
{
    'stretches: loop {
        run_stretch(engine, ledger)?;
        if !engine.resume() {
            return Ok(());
        }
        ledger.next_stretch();
    }
}

// The whole order, from the begin to its end or to its first clash. It asks for a text and for room in the marks, as the other
// whole orders do: both are of what an order begins with, and not of every engine. Turns and marks go beside it, and are used up in it.
pub fn run_in_turn(engine: &mut Engine, turns: u32, marks: &mut [u32]) -> Result<(), Clash>
    requires text { SomeText (source engine.old.script.now) }
    requires room { ledger_words (length engine.old.memory.now) ≤ length marks.old }
    ensures runs { MatchResult result (λ _. RunsToEnd engine.old turns engine.new) (RunsToClash engine.old turns) }
    ensures stays { Stays engine.old engine.new }
{
    engine.begin(turns);
    run_stretches(engine, &mut Ledger::open(marks))
}
