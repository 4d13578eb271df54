// What is told of touches in small orders.
ghost use Rattle.ledger.specs.Lent.{SameMarks};

use crate::places::{Earlier, Ledger};
use crate::stamp::{LAST, Stamp};
use model::{Access, Change, Place, ThreadId};

const READ: Access = Access::Reading;

const WRITE: Access = Access::Changing(Change::Write);

const ADD: Access = Access::Changing(Change::Add);

// Whether a thread may touch a place.
fn fine(ledger: &mut Ledger, thread: u32, place: usize, access: Access) -> bool
    ensures { SameMarks ledger.old ledger.new }
{
    place < ledger.marks.len() / 2 && ledger.note(ThreadId(thread), Place(place), access).is_ok()
}

// Whether threads 5 and 3 may touch a place one after the other.
fn pair(first: Access, second: Access) -> bool {
    let mut marks = [7; 2];
    let mut ledger = Ledger::open(&mut marks);
    fine(&mut ledger, 5, 0, first) && fine(&mut ledger, 3, 0, second)
}

#[test]
fn alike_go_together(rt: HostRuntime) {
    assert!(rt; pair(READ, READ));
    assert!(rt; pair(ADD, ADD));
    assert!(rt; !pair(WRITE, WRITE));
}

#[test]
fn others_clash(rt: HostRuntime) {
    assert!(rt; !pair(READ, WRITE));
    assert!(rt; !pair(READ, ADD));
    assert!(rt; !pair(WRITE, READ));
    assert!(rt; !pair(WRITE, ADD));
    assert!(rt; !pair(ADD, READ));
    assert!(rt; !pair(ADD, WRITE));
}

#[test]
fn shared_reads_then_a_write(rt: HostRuntime) {
    let mut marks = [0; 4];
    let mut ledger = Ledger::open(&mut marks);
    assert!(rt; fine(&mut ledger, 0, 1, READ));
    assert!(rt; fine(&mut ledger, 1, 1, READ));
    assert!(rt; fine(&mut ledger, 0, 0, WRITE));
    assert!(rt; !fine(&mut ledger, 0, 1, WRITE));
    assert!(rt; !fine(&mut ledger, 2, 1, ADD));
}

#[test]
fn one_thread_reads_and_writes(rt: HostRuntime) {
    let mut marks = [0; 2];
    let mut ledger = Ledger::open(&mut marks);
    assert!(rt; fine(&mut ledger, 4, 0, READ));
    assert!(rt; fine(&mut ledger, 4, 0, WRITE));
    assert!(rt; fine(&mut ledger, 4, 0, ADD));
    assert_eq!(rt;
        ledger.note(ThreadId(9), Place(0), READ),
        Err(Earlier(ThreadId(4)))
    );
}

#[test]
fn nothing_is_kept_over_a_wait(rt: HostRuntime) {
    let mut marks = [0; 2];
    let mut ledger = Ledger::open(&mut marks);
    assert!(rt; fine(&mut ledger, 0, 0, WRITE));
    ledger.next_stretch();
    assert!(rt; fine(&mut ledger, 1, 0, WRITE));
    assert!(rt; !fine(&mut ledger, 0, 0, READ));
}

#[test]
fn stamps_run_out(rt: HostRuntime) {
    let mut marks = [0; 2];
    let mut ledger = Ledger {
        marks: &mut marks,
        stamp: Stamp { count: LAST - 1 },
    };
    assert!(rt; fine(&mut ledger, 0, 0, WRITE));
    ledger.next_stretch();
    assert_eq!(rt; ledger.stretch(), LAST);
    assert!(rt; fine(&mut ledger, 1, 0, WRITE));
    assert!(rt; !fine(&mut ledger, 0, 0, READ));
    ledger.next_stretch();
    assert_eq!(rt; ledger.stretch(), 1);
    assert_eq!(rt; ledger.marks[1], 0);
    assert!(rt; fine(&mut ledger, 2, 0, WRITE));
    assert!(rt; !fine(&mut ledger, 3, 0, WRITE));
}
