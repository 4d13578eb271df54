// What is told of an order so far: touches are noted until two threads have clashed.
ghost use Rattle.std.specs.Prelude.{◌≡◌, ℕ, Some, ◌+◌, ◌*◌, ◌<◌, List, length};
ghost use Rattle.machine.specs.Rules.{touches};
ghost use Rattle.ledger.specs.Lent.{notes_in, SameMarks};
ghost use Rattle.ledger.specs.Promises.{NotePost, OpenPost};
ghost use Rattle.kernel.specs.Watching.{told_in, Within, Opened, touching, resuming, Watched, has_clashed};

use ledger::{Access, Change, Earlier, Ledger, Stamp};
use machine::Touch;
use model::{Place, ThreadId};

// Notes a touch. Each way of touching has a call of its own, so that it is compiled for that way alone: with one call for
// all of them a run takes up to a tenth more instructions.
pub fn note_touch(
    ledger: &mut Ledger,
    thread: ThreadId,
    place: Place,
    access: Access,
) -> Result<(), Earlier>
    requires within { 2 * place.0 + 1 < length ledger.old.marks.now }
    ensures noted { NotePost (notes_in ledger.old) (notes_in ledger.new) thread.0 place.0 access result }
    ensures same_marks { SameMarks ledger.old ledger.new }
{
    match access {
        Access::Reading => ledger.note(thread, place, Access::Reading),
        Access::Changing(Change::Write) => {
            ledger.note(thread, place, Access::Changing(Change::Write))
        }
        Access::Changing(Change::Add) => {
            ledger.note(thread, place, Access::Changing(Change::Add))
        }
    }
}

// Notes a touch of a drawn order, by one call for all ways of touching.
fn note_drawn(ledger: &mut Ledger, thread: ThreadId, touch: Touch) -> Result<(), Earlier>
    requires within { 2 * touch.place.0 + 1 < length ledger.old.marks.now }
    ensures noted { NotePost (notes_in ledger.old) (notes_in ledger.new) thread.0 touch.place.0 touch.access result }
    ensures same_marks { SameMarks ledger.old ledger.new }
{
    ledger.note(thread, touch.place, touch.access)
}

// In which stretch an order is, while there was no clash. The marks are the caller's and stand beside it: so a watch can be copied,
// and its contracts say what the caller's marks end as.
#[derive(Clone, Copy, Debug, PartialEq, Eq)]
pub struct Watch(pub Option<Stamp>);

impl Watch {
    // In the stretch of a ledger. By a function, since of a ledger whose stamp is taken out nothing is known of what its marks end as.
    fn over(ledger: &Ledger) -> Watch
        ensures { result.0 ≡ Some ledger.now.stamp }
    {
        Watch(Some(ledger.stamp))
    }

    // An order begins, and nothing is noted.
    pub fn open(marks: &mut [u32]) -> Watch
        ensures { Opened (length marks.old) (told_in result marks.new) }
    {
        Watch::over(&Ledger::open(marks))
    }

    // A thread took a step, and touched this.
    pub fn noted(self, marks: &mut [u32], thread: ThreadId, touch: Option<Touch>) -> Watch
        requires { Within (told_in self marks.old) touch }
        ensures { Watched (touching thread.0 (touches touch)) (told_in self marks.old) (told_in result marks.new) }
    {
        let Some(touch) = touch else {
            return self;
        };
        let Some(stamp) = self.0 else {
            return self;
        };
        let mut ledger = Ledger { marks, stamp };
        if note_drawn(&mut ledger, thread, touch).is_err() {
            return Watch(None);
        }
        Watch::over(&ledger)
    }

    // All that wait go on.
    pub fn resumed(self, marks: &mut [u32]) -> Watch
        ensures { Watched resuming (told_in self marks.old) (told_in result marks.new) }
    {
        let Some(stamp) = self.0 else {
            return self;
        };
        let mut ledger = Ledger { marks, stamp };
        ledger.next_stretch();
        Watch::over(&ledger)
    }

    pub fn clashed(self) -> bool
        ensures { (marks : List ℕ) → result ≡ has_clashed (told_in self marks) }
    {
        self.0.is_none()
    }
}
