// What expressions and statements begin with, as docs/KERNELS.md lists them. These are not the heads of `rows`: a page asks which
// words a part begins with and what stands in its place where there is no room, so those with parts and those without are two types.
ghost use Rattle.std.specs.Prelude.{◌≡◌, ◌∷◌, option_to_list};
ghost use Rattle.texts.specs.Spelled.{leaf_row, head_row, parts_in, instead_of};

use model::{Change, Op};

/// An expression or a statement with no part in it.
#[derive(Clone, Copy, Debug, PartialEq)]
pub enum Leaf {
    Number(u32),
    Variable(u32),
    Me,
    All,
    Nothing,
    Wait,
}

/// What an expression or a statement with parts in it begins with.
#[derive(Clone, Copy, Debug, PartialEq)]
pub enum Head {
    /// Both operands are to follow.
    Operation(Op),
    /// One statement after the other; both are to follow.
    Two,
    /// Sets a variable; its value is to follow.
    Set(u32),
    /// Reads to a variable; the place is to follow.
    Read(u32),
    /// Changes a word; the place and the value are to follow.
    Update(Change),
    /// The test and both statements are to follow.
    If,
    /// A loop; the test and the body are to follow.
    While,
}

/// The words of a leaf, or those with which a head begins: one, or two.
pub type Words = (u32, Option<u32>);

impl Leaf {
    pub fn words(self) -> Words
        ensures { result.0 ∷ option_to_list result.1 ≡ leaf_row self }
    {
        match self {
            Leaf::Number(n) => (0, Some(n)),
            Leaf::Variable(x) => (1, Some(x)),
            Leaf::Me => (2, None),
            Leaf::All => (3, None),
            Leaf::Nothing => (0, None),
            Leaf::Wait => (8, None),
        }
    }
}

impl Head {
    pub fn words(self) -> Words
        ensures { result.0 ∷ option_to_list result.1 ≡ head_row self }
    {
        match self {
            Head::Operation(op) => (4, Some(u32::from(op))),
            Head::Two => (1, None),
            Head::Set(x) => (2, Some(x)),
            Head::Read(x) => (3, Some(x)),
            Head::Update(Change::Write) => (4, None),
            Head::Update(Change::Add) => (5, None),
            Head::If => (6, None),
            Head::While => (7, None),
        }
    }

    /// How many parts are in it.
    pub fn parts(self) -> u8
        ensures { result ≡ parts_in self }
    {
        match self {
            Head::Set(_) | Head::Read(_) => 1,
            Head::If => 3,
            _ => 2,
        }
    }

    /// What stands in its place where a page has no room for it.
    pub fn instead(self) -> Leaf
        ensures { result ≡ instead_of self }
    {
        match self {
            Head::Operation(_) => Leaf::Me,
            _ => Leaf::Nothing,
        }
    }
}
