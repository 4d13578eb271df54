// What a text is, what its threads do, and when they clash. The definitions that every contract of the
// project rests on stand in specs/; here is what is promised of them, and the types that code handles too.
#![tactic(auto)]

ghost use Rattle.std.specs.Prelude.{◌≡◌, ◌≤◌, IfOk, OnErr};
ghost use Rattle.model.specs.Cases.{Cases};
ghost use Rattle.model.specs.Orders.{Parts};
ghost use Rattle.model.specs.Rows.{op_code};

// The operations on two words.
#[derive(Clone, Copy, Debug, PartialEq, Eq)]
pub enum Op {
    Add,
    Sub,
    Mul,
    Div,
    Rem,
    Less,
    Same,
}

// The number of a thread, from 0.
#[derive(Clone, Copy, Debug, PartialEq, Eq)]
pub struct ThreadId(pub u32);

// A place of the memory, from 0.
#[derive(Clone, Copy, Debug, PartialEq, Eq)]
pub struct Place(pub usize);

// The ways in which a statement changes a word of the memory.
#[derive(Clone, Copy, Debug, PartialEq, Eq)]
pub enum Change {
    Write,
    Add,
}

// How a step touches a place: it reads the word there, or changes it.
#[derive(Clone, Copy, Debug, PartialEq, Eq)]
pub enum Access {
    Reading,
    Changing(Change),
}

// What a thread is at: it takes steps, waits for the others, has nothing left to do, or has met a
// loop's test with no turn left.
#[derive(Clone, Copy, Debug, PartialEq, Eq)]
pub enum Status {
    Going,
    Waiting,
    Ended,
    OutOfTurns,
}

// Two threads that clash, the smaller number first, and the place at which they do.
#[derive(Clone, Copy, Debug, PartialEq, Eq)]
pub struct Clash {
    pub first: ThreadId,
    pub second: ThreadId,
    pub place: Place,
}

// A number that stands for no operation.
#[derive(Clone, Copy, Debug, PartialEq, Eq)]
pub struct NoOperation(pub u32);

impl From<Op> for u32 {
    ghost from_gives = { λ op code. code ≡ op_code op };

    fn from(op: Op) -> u32 {
        match op {
            Op::Add => 0,
            Op::Sub => 1,
            Op::Mul => 2,
            Op::Div => 3,
            Op::Rem => 4,
            Op::Less => 5,
            Op::Same => 6,
        }
    }
}

impl TryFrom<u32> for Op {
    type Error = NoOperation;

    ghost try_from_gives = { λ code r. IfOk r (λ op. code ≡ op_code op) × OnErr r (7 ≤ code) };

    fn try_from(code: u32) -> Result<Op, NoOperation> {
        match code {
            0 => Ok(Op::Add),
            1 => Ok(Op::Sub),
            2 => Ok(Op::Mul),
            3 => Ok(Op::Div),
            4 => Ok(Op::Rem),
            5 => Ok(Op::Less),
            6 => Ok(Op::Same),
            _ => Err(NoOperation(code)),
        }
    }
}

// What holds of the orders in which threads can take their steps.
pub fn parts_stand()
    ensures { Parts }
{}

// What the definitions come to on small kernels.
pub fn cases_stand()
    ensures { Cases }
{}
