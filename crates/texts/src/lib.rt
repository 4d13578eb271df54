// Texts by chance, made so that about half of them are even although their threads touch the memory a lot.
//
// Rows are written in prefix order on a page of a fixed size. Proved is that whatever is begun comes to its end on the
// page: each function that writes a part lowers what is owed by one, and the page always has room for what is owed; and
// that a part begins with the words of its row. That the rows are then a text is not proved; whoever runs them sees it.
#![tactic(auto)]

mod author;
pub mod case;
mod chance;
mod expression;
mod page;
mod part;
mod plan;
mod spell;
mod stretch;
mod touch;

pub use page::MOST;
