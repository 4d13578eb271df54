// Reads the rows of a text: whether they are one, which one, and where not.
//
// `decode` is the way in. It promises exactly whether rows say a kernel, the sizes of that kernel, the
// table of ends, and that rows never say two kernels; and of a refusal what its reason says of the rows
// at its place. That the place is the best one for a person to look at is not promised, and tested.
#![tactic(auto)]

pub mod decoder;
pub mod head;
mod part;
mod reader;
pub mod refusals;

pub use decoder::{Text, decode};
pub use refusals::{Fault, Refusal};
