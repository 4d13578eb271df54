// A step of a thread, of which is noted what it touched.
// Engine and ledger go side by side: of a struct that holds both nothing is known of what the lent words end as.
ghost use Rattle.std.specs.Prelude.{◌≤◌, length};
ghost use Rattle.machine.specs.Engines.{Stays};
ghost use Rattle.machine.specs.Stands.{source};
ghost use Rattle.machine.specs.Stepped.{CanStepOf};
ghost use Rattle.ledger.specs.Lent.{notes_in, SameMarks};
ghost use Rattle.ledger.specs.Runs.{ledger_words};
ghost use Rattle.kernel.specs.Noting.{StepNoted};

use crate::watch::note_touch;
use ledger::Ledger;
use machine::{Engine, Touch};
use model::{Clash, ThreadId};

// A thread that is going takes a step, and what it touched is noted. A clash is told with the thread that touched the place
// first, and then with the one that takes the step.
pub fn step_noted(engine: &mut Engine, ledger: &mut Ledger, thread: ThreadId) -> Result<(), Clash>
    requires can { CanStepOf (source engine.old.script.now) engine.old.work.now engine.old.memory.now thread.0 engine.old.threads }
    requires room { ledger_words (length engine.old.memory.now) ≤ length ledger.old.marks.now }
    ensures step { StepNoted engine.old engine.new (notes_in ledger.old) (notes_in ledger.new) thread result }
    ensures stays { Stays engine.old engine.new }
    ensures same_marks { SameMarks ledger.old ledger.new }
{
    let Some(Touch { place, access }) = engine.step(thread) else {
        return Ok(());
    };
    note_touch(ledger, thread, place, access).map_err(|earlier| Clash {
        first: earlier.0,
        second: thread,
        place,
    })
}
