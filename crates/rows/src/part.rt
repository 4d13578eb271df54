// What reading a statement, an expression or several of them tells.
ghost use Rattle.std.specs.Prelude.{◌≡◌, suc, ◌+◌, ◌^◌, ◌<◌, max};

// `end` is the position behind it, `statements` how many statements stand in it, and `deep` how deep
// statements and expressions stand in one another there.
#[derive(Clone, Copy)]
pub struct Part {
    pub end: usize,
    pub statements: usize,
    pub deep: u32,
}

impl Part {
    // No part, where one would begin.
    pub fn none(at: usize) -> Part
        ensures { result ≡ record { end = at; statements = 0; deep = 0 } }
    {
        Part {
            end: at,
            statements: 0,
            deep: 0,
        }
    }

    // This part and the one behind it. The two can't change places, so this is no `+`.
    pub fn joined(self, next: Part) -> Part
        requires fits { self.statements + next.statements < 2 ^ 64 }
        ensures { result ≡ record { end = next.end; statements = self.statements + next.statements; deep = max self.deep next.deep } }
    {
        Part {
            end: next.end,
            statements: self.statements + next.statements,
            deep: self.deep.max(next.deep),
        }
    }

    // This part under a head that is so many statements itself.
    pub fn under_head(self, own: usize) -> Part
        requires fits { own + self.statements < 2 ^ 64 }
        requires shallow { self.deep + 1 < 2 ^ 32 }
        ensures { result ≡ record { end = self.end; statements = own + self.statements; deep = suc self.deep } }
    {
        Part {
            statements: own + self.statements,
            deep: self.deep + 1,
            ..self
        }
    }
}
