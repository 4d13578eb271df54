// The marks of all places, in lent words: two words for each place.
ghost use Rattle.std.specs.Prelude.{◌≡◌, ◌+◌, ◌*◌, ◌<◌, length};
ghost use Rattle.ledger.specs.Places.{mark_in, marked_at, notes, opened};
ghost use Rattle.ledger.specs.Lent.{notes_in, SameMarks};
ghost use Rattle.ledger.specs.Promises.{NotePost, NextPost, OpenPost};

use crate::mark::Mark;
use crate::stamp::Stamp;
use model::{Access, Place, ThreadId};

// The first thread that touched the place, with which a touch clashes.
#[derive(Clone, Copy, Debug, PartialEq, Eq)]
pub struct Earlier(pub ThreadId);

// The lent words, and the stamp of the stretch.
#[derive(Drop)]
pub struct Ledger<'a> {
    pub marks: &'a mut [u32],
    pub stamp: Stamp,
}

impl<'a> Ledger<'a> {
    // Begins: nothing is noted.
    pub fn open(marks: &'a mut [u32]) -> Ledger<'a>
        ensures opened { OpenPost (length marks.old) (notes_in result) }
        ensures same_marks { result.marks.ghost_name ≡ marks.entry.ghost_name }
        ensures as_many { length result.marks.now ≡ length marks.old }
    {
        let mut ledger = Ledger {
            marks,
            stamp: Stamp::FIRST,
        };
        ledger.clear();
        ledger
    }

    // Forgets all: the words are as new, and so is the stamp.
    fn clear(&mut self)
        ensures cleared { notes_in self.new ≡ opened (length self.old.marks.now) }
        ensures same_marks { SameMarks self.old self.new }
    {
        self.marks.fill(0);
        self.stamp = Stamp::FIRST;
    }

    // Two words are written by index, since `as_chunks_mut` says nothing of what its slice ends as, and read as they are written.
    // That the place is within is asked by each: it is of the place and of this ledger, and no type of either says it.
    fn mark_at(&self, place: Place) -> Mark
        requires within { 2 * place.0 + 1 < length self.now.marks.now }
        ensures { result ≡ mark_in self.now.marks.now place.0 }
    {
        Mark::from((self.marks[2 * place.0], self.marks[2 * place.0 + 1]))
    }

    fn put_mark(&mut self, place: Place, mark: Mark)
        requires within { 2 * place.0 + 1 < length self.old.marks.now }
        ensures put { notes_in self.new ≡ notes (marked_at self.old.marks.now place.0 mark) self.old.stamp }
        ensures same_marks { SameMarks self.old self.new }
    {
        let (first, tag) = mark.into();
        let marks = &mut *self.marks;
        marks[2 * place.0] = first;
        marks[2 * place.0 + 1] = tag;
    }

    // Notes that a thread touched a place. A mark of another stretch is told first, and not by `Mark::noted`: that takes
    // a third more instructions for each touch, since the old mark is then taken apart.
    pub fn note(&mut self, thread: ThreadId, place: Place, access: Access) -> Result<(), Earlier>
        requires within { 2 * place.0 + 1 < length self.old.marks.now }
        ensures noted { NotePost (notes_in self.old) (notes_in self.new) thread.0 place.0 access result }
        ensures same_marks { SameMarks self.old self.new }
    {
        let mark = self.mark_at(place);
        if mark.is_old(self.stamp) {
            self.put_mark(place, Mark::fresh(self.stamp, thread, access));
            return Ok(());
        }
        let Some(after) = mark.again(thread, access) else {
            return Err(Earlier(mark.first));
        };
        self.put_mark(place, after);
        Ok(())
    }

    // The number of the stretch: how many there have been since the words were cleared.
    pub fn stretch(&self) -> u32
        ensures { result ≡ self.now.stamp }
    {
        self.stamp.count
    }

    // All threads go on, and every touch is forgotten. That takes no time for each place, but once in
    // 268,435,455 times, when the stamps have run out.
    pub fn next_stretch(&mut self)
        ensures next { NextPost (notes_in self.old) (notes_in self.new) }
        ensures same_marks { SameMarks self.old self.new }
    {
        match self.stamp.next() {
            Some(after) => self.stamp = after,
            None => self.clear(),
        }
    }
}
