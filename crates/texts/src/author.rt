// Who writes a text by chance. What is written stands in the files beside this one: expressions, touches, parts, stretches.
// Each method says for itself that it writes a part that was owed: a trait that says it once would want a type for each, and it
// is no invariant, since of a page that is done nothing is owed.
// What is written next is a `match` on a drawn number, with its chances: a table of closures would say this contract again.
use crate::page::Page;
use crate::plan::Plan;
use kernel::draw::Draw;

/// The page that is written on, where numbers are drawn from, and what the text is made for.
#[derive(Drop)]
pub struct Author<'a> {
    pub page: Page,
    pub draw: &'a mut Draw,
    pub plan: Plan,
}
