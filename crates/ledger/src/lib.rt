// What the runner keeps in mind about touched places: two words for a place, and a stamp.
//
// `Ledger::open` begins, `note` notes one touch, and `next_stretch` forgets all touches when all threads go on.
// `note` promises that it tells a clash exactly when two threads clash, in whatever order they take their steps.
// Which of the clashing threads it names is promised only where threads go one after the other.
#![tactic(auto)]

pub mod access;
mod mark;
pub mod places;
pub mod stamp;
#[cfg(test)]
mod tests;

pub use access::goes_with;
pub use model::{Access, Change};
pub use places::{Earlier, Ledger};
pub use stamp::Stamp;
