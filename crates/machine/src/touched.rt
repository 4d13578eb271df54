// Who takes a step, and what it touched of the memory.
use model::{Place, ThreadId};
pub use model::{Access, Change};

// The thread that takes the step, and how many there are.
#[derive(Clone, Copy)]
pub struct Who {
    pub me: ThreadId,
    pub all: u32,
}

// A step touches one place at most, in one way.
#[derive(Clone, Copy, Debug, PartialEq, Eq)]
pub struct Touch {
    pub place: Place,
    pub access: Access,
}
