// Small texts, stepped by hand.
ghost use Rattle.std.specs.Prelude.{◌≡◌, ◌<◌};
ghost use Rattle.model.specs.Kernel.{Stmt};
ghost use Rattle.machine.specs.Begins.{TextOf, TextStands};
ghost use Rattle.machine.specs.Engines.{Stays};
ghost use Rattle.machine.specs.Stands.{source};
ghost use Rattle.machine.specs.Stepped.{Running};

use crate::engine::Engine;
use crate::script::Script;
use crate::thread::Status;
use model::ThreadId;
use rows::decode;
use std::test::Fail;

// Thread `me` goes until it waits or stops.
fn go(engine: &mut Engine, me: ThreadId)
    requires runs { Running (source engine.old.script.now) engine.old.work.now engine.old.memory.now engine.old.threads }
    requires known { me.0 < engine.old.threads }
    ensures runs { Running (source engine.old.script.now) engine.new.work.now engine.new.memory.now engine.old.threads }
    ensures stays { Stays engine.old engine.new }
{
    'steps: while let Some(_) = engine.advance(me) {}
}

// Both threads go until they wait or stop.
fn go_both(engine: &mut Engine)
    requires runs { Running (source engine.old.script.now) engine.old.work.now engine.old.memory.now engine.old.threads }
    requires two { engine.old.threads ≡ 2 }
    ensures runs { Running (source engine.old.script.now) engine.new.work.now engine.new.memory.now engine.old.threads }
    ensures stays { Stays engine.old engine.new }
{
    go(engine, ThreadId(0));
    go(engine, ThreadId(1));
}

// They begin, and go until they wait or stop.
fn start(engine: &mut Engine, turns: u32)
    requires text { (body : Stmt) × TextStands (source engine.old.script.now) body }
    requires two { engine.old.threads ≡ 2 }
    ensures runs { Running (source engine.old.script.now) engine.new.work.now engine.new.memory.now engine.old.threads }
    ensures stays { Stays engine.old engine.new }
{
    engine.begin(turns);
    go_both(engine);
}

// Two threads go on until both wait or stop, and once more. It takes what `decode` left, since `TextOf` says it of these three.
fn go_twice<'a>(
    rows: &'a [u32],
    ends: &'a [u32],
    variables: u32,
    turns: u32,
    memory: &'a mut [u32],
) -> (Status, Status)
    requires { TextOf rows.now ends.now variables }
{
    let mut work = [0; 2048];
    let script = Script::new(rows, ends, variables);
    let mut engine = Engine {
        script: &script,
        threads: 2,
        work: &mut work,
        memory,
    };
    start(&mut engine, turns);
    let _released = engine.release();
    go_both(&mut engine);
    (engine.status_of(ThreadId(0)), engine.status_of(ThreadId(1)))
}

fn run_two(rows: &[u32], turns: u32, memory: &mut [u32]) -> Option<(Status, Status)> {
    let mut ends = [0; 16];
    match decode(rows, &mut ends) {
        Ok(text) => Some(go_twice(rows, &ends, text.variables, turns, memory)),
        Err(_) => None,
    }
}

// Both threads read their own word, wait, and add it to word 0.
#[test]
fn sum(rt: HostRuntime) -> Result<(), Fail> {
    let mut memory = [5, 7];
    let rows = [1, 1, 3, 0, 2, 1, 8, 5, 0, 0, 1, 0];
    let Some((Status::Ended, Status::Ended)) = run_two(&rows, 9, &mut memory) else {
        return Err(Fail::new("both threads end"));
    };
    assert!(rt; memory[0] == 17);
    assert!(rt; memory[1] == 7);
    Ok(())
}

// Both threads write the value of one operation to their own word: 9 div 0, 9 rem 0, 0 sub 1, 2 less 3.
#[test]
fn operations(rt: HostRuntime) {
    let mut memory = [5, 7];
    let _ended = run_two(&[0, 4, 2, 4, 3, 0, 9, 0, 0], 0, &mut memory);
    assert!(rt; memory[0] == 0);
    let _ended = run_two(&[0, 4, 2, 4, 4, 0, 9, 0, 0], 0, &mut memory);
    assert!(rt; memory[0] == 9);
    let _ended = run_two(&[0, 4, 2, 4, 1, 0, 0, 0, 1], 0, &mut memory);
    assert!(rt; memory[1] == 4_294_967_295);
    let _ended = run_two(&[0, 4, 2, 4, 5, 0, 2, 0, 3], 0, &mut memory);
    assert!(rt; memory[1] == 1);
}

// A loop without turns is kept.
#[test]
fn no_turns() -> Result<(), Fail> {
    let Some((Status::OutOfTurns, Status::OutOfTurns)) = run_two(&[0, 7, 0, 1, 0], 0, &mut [])
    else {
        return Err(Fail::new("both threads are out of turns"));
    };
    Ok(())
}

// Two threads go on until both wait or stop, twice, and after each time all that wait go on in one pass: whether any
// waited.
fn resume_twice<'a>(
    rows: &'a [u32],
    ends: &'a [u32],
    variables: u32,
    memory: &'a mut [u32],
) -> (bool, bool)
    requires { TextOf rows.now ends.now variables }
{
    let mut work = [0; 2048];
    let script = Script::new(rows, ends, variables);
    let mut engine = Engine {
        script: &script,
        threads: 2,
        work: &mut work,
        memory,
    };
    start(&mut engine, 9);
    let first = engine.resume();
    go_both(&mut engine);
    (first, engine.resume())
}

// The threads of `sum` wait once.
#[test]
fn resumed(rt: HostRuntime) -> Result<(), Fail> {
    let mut memory = [5, 7];
    let mut ends = [0; 16];
    let rows = [1, 1, 3, 0, 2, 1, 8, 5, 0, 0, 1, 0];
    let Ok(text) = decode(&rows, &mut ends) else {
        return Err(Fail::new("the rows are those of a text"));
    };
    let (first, second) = resume_twice(&rows, &ends, text.variables, &mut memory);
    assert!(rt; first);
    assert!(rt; !second);
    assert!(rt; memory[0] == 17);
    assert!(rt; memory[1] == 7);
    Ok(())
}
