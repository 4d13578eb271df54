// The engine: steps of a kernel's threads, on lent words.
//
// A text that was decoded is a `Script`, and an `Engine` has that script, the work words and the memory. `begin` lays
// threads into the work words, 1,024 for each; `advance` takes a step of one of them and tells what it touched;
// `release` lets all that wait go on, if no thread is going, and `resume` does it in one pass for a caller who knows
// that none is.
// Promised is that each of these is what the definitions say, for every state that the words hold, and
// that each step leaves less to do (`loads`), so that loops over steps end. The words say nothing of what
// was touched before: whoever looks for clashes keeps that.
#![tactic(auto)]

pub mod engine;
pub mod expression;
pub mod release;
pub mod resume;
pub mod rule;
pub mod script;
pub mod step;
pub mod thread;
pub mod touched;

pub use engine::{Engine, begin_all, status_of};
pub use release::{Released, release_all};
pub use resume::resume_all;
pub use script::Script;
pub use thread::Status;
pub use touched::{Access, Change, Touch};

#[cfg(test)]
mod tests;
