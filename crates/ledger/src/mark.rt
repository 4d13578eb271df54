// The mark of a place: who touched it first in a stretch, in which ways, and whether others did too.
ghost use Rattle.std.specs.Prelude.{◌≡◌, true, false, IfSome, ◌≢◌};
ghost use Rattle.ledger.specs.Marks.{IsPacked, untag, flagged, admits, fresh, again, noted};

use crate::access::goes_with;
use crate::stamp::Stamp;
use model::{Access, Change, ThreadId};

// `stamp` is that of the stretch that the mark is of. It stands last, since beside `first` the compiler copies both as
// one word, which takes two instructions more for each touch. The flags are four bools and not a set of bits, since each
// is asked and set under its own name, by contracts too.
#[derive(Clone, Copy, Debug, PartialEq, Eq)]
pub struct Mark {
    pub first: ThreadId,
    pub read: bool,
    pub written: bool,
    pub added: bool,
    pub shared: bool,
    pub stamp: Stamp,
}

// The mark as two words: the first thread, and the stamp with the flags below it.
impl From<Mark> for (u32, u32) {
    ghost from_gives = { λ mark words. IsPacked mark words };

    fn from(mark: Mark) -> (u32, u32) {
        let flags = mark.read as u32
            + 2 * mark.written as u32
            + 4 * mark.added as u32
            + 8 * mark.shared as u32;
        (mark.first.0, 16 * mark.stamp.count + flags)
    }
}

impl From<(u32, u32)> for Mark {
    ghost from_gives = { λ words mark. mark ≡ untag words.0 words.1 };

    fn from((first, tag): (u32, u32)) -> Mark {
        Mark {
            first: ThreadId(first),
            stamp: Stamp { count: tag / 16 },
            read: tag % 2 == 1,
            written: tag / 2 % 2 == 1,
            added: tag / 4 % 2 == 1,
            shared: tag / 8 % 2 == 1,
        }
    }
}

impl Mark {
    // With one more way in which the first thread touched the place.
    fn flagged(self, access: Access) -> Mark
        ensures { result ≡ flagged self access }
    {
        match access {
            Access::Reading => Mark { read: true, ..self },
            Access::Changing(Change::Write) => Mark {
                written: true,
                ..self
            },
            Access::Changing(Change::Add) => Mark {
                added: true,
                ..self
            },
        }
    }

    // The mark of a place that nobody has touched in the stretch before.
    pub fn fresh(now: Stamp, thread: ThreadId, access: Access) -> Mark
        ensures value { result ≡ fresh now thread.0 access }
        ensures stamp { result.stamp ≡ now }
    {
        let blank = Mark {
            first: thread,
            stamp: now,
            read: false,
            written: false,
            added: false,
            shared: false,
        };
        blank.flagged(access)
    }

    // Whether a touch goes with all that the mark tells.
    fn admits(&self, access: Access) -> bool
        ensures { result ≡ admits self.now access }
    {
        (!self.read || goes_with(Access::Reading, access))
            && (!self.written || goes_with(Access::Changing(Change::Write), access))
            && (!self.added || goes_with(Access::Changing(Change::Add), access))
    }

    // Whether the mark is of another stretch, so that it tells nothing of this one.
    pub fn is_old(&self, now: Stamp) -> bool
        ensures old { result ≡ true → self.now.stamp ≢ now }
        ensures current { result ≡ false → self.now.stamp ≡ now }
    {
        self.stamp != now
    }

    // The mark of this stretch after one more touch, or nothing where that clashes with a touch by another thread.
    pub fn again(&self, thread: ThreadId, access: Access) -> Option<Mark>
        ensures value { result ≡ again self.now thread.0 access }
        ensures stamp { IfSome result (λ m. m.stamp ≡ self.now.stamp) }
    {
        if !self.shared && self.first == thread {
            Some(self.flagged(access))
        } else if self.admits(access) {
            Some(Mark {
                shared: true,
                ..*self
            })
        } else {
            None
        }
    }

    // The mark after one more touch, or nothing where that clashes with a touch by another thread. `Ledger::note` takes its two
    // cases by themselves, for speed; it stays as what both come to.
    pub fn noted(&self, now: Stamp, thread: ThreadId, access: Access) -> Option<Mark>
        ensures value { result ≡ noted self.now now thread.0 access }
        ensures stamp { IfSome result (λ m. m.stamp ≡ now) }
    {
        if self.is_old(now) {
            Some(Mark::fresh(now, thread, access))
        } else {
            self.again(thread, access)
        }
    }
}
