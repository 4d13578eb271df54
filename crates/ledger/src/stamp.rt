// The number of a stretch, which is what lies between two moments at which all threads go on.
ghost use Rattle.std.specs.Prelude.{◌≡◌, ℕ, ◌+◌, ◌^◌, ◌<◌};
ghost use Rattle.ledger.specs.Stamps.{after_stamp};

use std::marker::Model;

// In contracts a stamp is its number.
#[derive(Clone, Copy, Debug, PartialEq, Eq)]
pub struct Stamp {
    pub count: u32,
}

impl Model for Stamp {
    ghost Value = { ℕ };

    ghost view = { λ s. s.count };

    ghost invariant = { λ s. s.count < 2 ^ 28 };

    ghost inverse = { λ n. record { count = n } };
}

// The largest stamp.
pub const LAST: u32 = 268_435_455;

impl Stamp {
    pub const FIRST: Stamp = Stamp { count: 1 };

    // The stamp of the stretch after this one, while there is one.
    pub fn next(self) -> Option<Stamp>
        ensures { result ≡ after_stamp self }
    {
        if self.count < LAST {
            Some(Stamp {
                count: self.count + 1,
            })
        } else {
            None
        }
    }
}
