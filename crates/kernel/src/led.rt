// The order in which the first thread that is going takes each step, led step by step: a second way to the clash
// that `run` tells, which shares nothing with it but the engine and the ledger.
// Engine and ledger go side by side: of a struct that holds both nothing is known of what the lent words end as. For that
// reason `SomeRun`, which speaks of both, is asked by each function and is no invariant.
ghost use Rattle.std.specs.Prelude.{◌≡◌, ◌<◌, ◌≤◌, length, Some, MatchResult};
ghost use Rattle.machine.specs.Engines.{Stays};
ghost use Rattle.machine.specs.Stands.{source};
ghost use Rattle.machine.specs.Together.{status_at};
ghost use Rattle.ledger.specs.Lent.{notes_in, SameMarks};
ghost use Rattle.ledger.specs.Runs.{ledger_words};
ghost use Rattle.kernel.specs.declared.led.NotCalm.TheVariants.{NotRun, Clashed};
ghost use Rattle.kernel.specs.Jobs.{sizes_of};
ghost use Rattle.kernel.specs.Order.{SomeRun};
ghost use Rattle.kernel.specs.Ran.{SomeText};
ghost use Rattle.kernel.specs.Led.{met_at, SteppedOn, GoneOn, ToEnd, ToClash, LeadsToEnd, LeadsToClash, LedSays, meets};

use crate::choice::next_of;
use crate::job::{Job, Lent, Refused};
use crate::watch::note_touch;
use ledger::Ledger;
use machine::{Engine, Script, Touch};
use model::{Clash, Place, ThreadId};

// A thread whose step clashed with what another one had touched, and the place. It is no `Clash`: which thread touched the
// place first isn't promised of this order.
#[derive(Clone, Copy, Debug, PartialEq, Eq)]
pub struct ClashAt {
    pub thread: ThreadId,
    pub place: Place,
}

// A clash as the second of its threads meets it.
impl From<Clash> for ClashAt {
    ghost from_gives = { λ clash at. at ≡ met_at clash };

    fn from(clash: Clash) -> ClashAt {
        ClashAt {
            thread: clash.second,
            place: clash.place,
        }
    }
}

// Why it didn't end without a clash: it was not run, or a thread clashed with another one.
#[derive(Clone, Copy, Debug, PartialEq, Eq)]
pub enum NotCalm {
    NotRun(Refused),
    Clashed(ClashAt),
}

// By hand, as the one below, since a derived `From` has no contract, and what `?` makes of an error is promised.
impl From<Refused> for NotCalm {
    ghost from_gives = { λ refused why. why ≡ NotRun refused };

    fn from(refused: Refused) -> NotCalm {
        NotCalm::NotRun(refused)
    }
}

impl From<ClashAt> for NotCalm {
    ghost from_gives = { λ at why. why ≡ Clashed at };

    fn from(at: ClashAt) -> NotCalm {
        NotCalm::Clashed(at)
    }
}

// Whether an order that was led came to the clash that is told: by the same thread, which is the second of the two, at the
// same place.
pub fn meets(led: Result<u32, NotCalm>, told: Clash) -> bool
    ensures { result ≡ meets told led }
{
    match led {
        Err(NotCalm::Clashed(at)) => at.thread == told.second && at.place == told.place,
        Ok(_) | Err(NotCalm::NotRun(_)) => false,
    }
}

// A thread that is going takes a step, and what it touched is noted. It is not the step of `run`: who clashes, and where, is told
// here once more.
fn step_on(engine: &mut Engine, ledger: &mut Ledger, thread: ThreadId) -> Result<(), ClashAt>
    requires some { SomeRun engine.old (Some (notes_in ledger.old)) }
    requires within { thread.0 < engine.old.threads }
    requires goes { status_at engine.old.work.now thread.0 ≡ 0 }
    ensures on { SteppedOn engine.old (notes_in ledger.old) engine.new (notes_in ledger.new) thread.0 result }
    ensures stays { Stays engine.old engine.new }
    ensures same_marks { SameMarks ledger.old ledger.new }
{
    let Some(Touch { place, access }) = engine.step(thread) else {
        return Ok(());
    };
    if note_touch(ledger, thread, place, access).is_err() {
        return Err(ClashAt { thread, place });
    }
    Ok(())
}

// The first thread that is going takes a step, or, where none is, all that wait go on, and the order with it; nothing at
// an end. It is no turn of `order`: that one goes on past a clash, and its promise speaks of a ledger that may be gone.
fn turn(engine: &mut Engine, ledger: &mut Ledger) -> Result<bool, ClashAt>
    requires { SomeRun engine.old (Some (notes_in ledger.old)) }
    ensures on { GoneOn engine.old (notes_in ledger.old) engine.new (notes_in ledger.new) result }
    ensures stays { Stays engine.old engine.new }
    ensures same_marks { SameMarks ledger.old ledger.new }
{
    if let Some(thread) = next_of(engine, 0) {
        step_on(engine, ledger, thread)?;
        return Ok(true);
    }
    if !engine.resume() {
        return Ok(false);
    }
    ledger.next_stretch();
    Ok(true)
}

// The order is carried on to its end, or to its first clash.
fn carry_on(engine: &mut Engine, ledger: &mut Ledger) -> Result<(), ClashAt>
    requires { SomeRun engine.old (Some (notes_in ledger.old)) }
    ensures { MatchResult result (λ _. ToEnd engine.old (notes_in ledger.old)) (ToClash engine.old (notes_in ledger.old)) }
{
    'order: while turn(engine, ledger)? {}
    Ok(())
}

// The whole order, from the begin to its end or to its first clash; at its end, in which stretch it is.
fn lead_text(engine: &mut Engine, turns: u32, marks: &mut [u32]) -> Result<u32, ClashAt>
    requires text { SomeText (source engine.old.script.now) }
    requires room { ledger_words (length engine.old.memory.now) ≤ length marks.old }
    ensures { MatchResult result (λ _. LeadsToEnd engine.old turns) (LeadsToClash engine.old turns) }
{
    engine.begin(turns);
    let mut ledger = Ledger::open(marks);
    carry_on(engine, &mut ledger)?;
    Ok(ledger.stretch())
}

// Leads a job through the order in which the first thread that is going takes each step, up to its first clash, and tells
// in how many stretches it ended. The memory is then as the order left it.
pub fn lead<'a>(job: Job<'a>, memory: &'a mut [u32], lent: Lent<'a>) -> Result<u32, NotCalm>
    ensures { LedSays job.entry.rows.now job.entry.threads job.entry.turns (sizes_of lent.entry job.entry.threads) memory.old result }
{
    let sizes = lent.sizes(job.threads as usize);
    let Lent { ends, work, marks } = lent;
    let text = job.text(memory.len(), sizes, ends)?;
    let script = Script {
        rows: job.rows,
        ends,
        variables: text.variables,
    };
    let mut engine = Engine {
        script: &script,
        threads: job.threads,
        work,
        memory,
    };
    Ok(lead_text(&mut engine, job.turns, marks)?)
}
