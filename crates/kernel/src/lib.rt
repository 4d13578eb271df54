// Whole orders of a text, and what they say of all others.
//
// `run` is the way in: it goes through the one order in which threads go one after the other, and promises that a
// text is even, with what every order leaves, or uneven, with two threads and a place that clash. `draw_order`
// runs one order in which the next thread is drawn, and promises that what is left is reached by steps of the
// definitions, that the end is an end, and that it is told exactly whether two threads clashed on the way; and, with
// the theory of orders, that where they didn't no order has a clash and every order ends so. `lead` goes through an order
// step by step up to its first clash, and promises that an order leads to the clash it tells.
#![tactic(auto)]

pub mod choice;
pub mod draw;
pub mod drawn;
pub mod job;
pub mod led;
mod noted;
pub mod order;
pub mod outcome;
pub mod runner;
mod sequence;
mod states;
pub mod watch;

pub use job::{Job, Lent, Refused};
pub use outcome::{Clash, Ran};
pub use runner::run;
