// Reads expressions and statements, with all that stands in them, and writes the table of ends.
ghost use Rattle.std.specs.Prelude.{◌≡◌, ◌≤◌, length};
ghost use Rattle.rows.specs.Parts.{sort, many};
ghost use Rattle.rows.specs.Reader.{read_part, read_parts};
ghost use Rattle.rows.specs.Told.{ToldOf};

use crate::head::{Kind, Words};
use crate::part::Part;
use crate::refusals::{Fault, Refusal};

// The words of a text, and the table into which their ends are written.
#[derive(Drop)]
pub struct Reader<'a> {
    pub text: Words<'a>,
    pub ends: &'a mut [u32],
    ghost short: { length text.rows.now ≤ 65536 },
    ghost room: { length text.rows.now ≤ length ends.now },
}

impl Reader<'_> {
    // One part, at most `depth` deep.
    #[cycle(part_parts)]
    pub fn part(&mut self, kind: Kind, at: usize, depth: u32) -> Result<Part, Refusal>
        ensures told { ToldOf (sort kind) (read_part kind depth) self.old.text depth at self.old.ends.now self.new.ends.now result }
        ensures same_text { self.new.text ≡ self.old.text }
        ensures same_table { self.new.ends.ghost_name ≡ self.old.ends.ghost_name }
    {
        let head = self.text.head(kind, at)?;
        if depth == 0 {
            return Err(Fault::TooDeep.at(at));
        }
        let front = self.parts(
            Kind::Expression,
            at + head.words,
            head.expressions,
            depth - 1,
        )?;
        let back = self.parts(Kind::Statement, front.end, head.statements, depth - 1)?;
        self.ends[at] = back.end as u32;
        Ok(front.joined(back).under_head(kind.statements()))
    }

    // So many parts, one behind the other.
    #[cycle(part_parts)]
    fn parts(&mut self, kind: Kind, at: usize, count: u32, depth: u32) -> Result<Part, Refusal>
        requires begins { at ≤ length self.old.text.rows.now }
        ensures told { ToldOf (many (sort kind) count) (read_parts kind count depth) self.old.text depth at self.old.ends.now self.new.ends.now result }
        ensures same_text { self.new.text ≡ self.old.text }
        ensures same_table { self.new.ends.ghost_name ≡ self.old.ends.ghost_name }
    {
        if count == 0 {
            return Ok(Part::none(at));
        }
        self.some_parts(kind, at, count, depth)
    }

    // .. of which there are some. It stands apart for speed: most parts have none in them, and with one function for both a text
    // of expressions takes seven tenths more instructions.
    #[cycle(part_parts)]
    fn some_parts(&mut self, kind: Kind, at: usize, count: u32, depth: u32) -> Result<Part, Refusal>
        requires begins { at ≤ length self.old.text.rows.now }
        ensures told { ToldOf (many (sort kind) count) (read_parts kind count depth) self.old.text depth at self.old.ends.now self.new.ends.now result }
        ensures same_text { self.new.text ≡ self.old.text }
        ensures same_table { self.new.ends.ghost_name ≡ self.old.ends.ghost_name }
    {
        let mut whole = Part::none(at);
        for _ in 0..count {
            let next = self.part(kind, whole.end, depth)?;
            whole = whole.joined(next);
        }
        Ok(whole)
    }
}
