// Tells words, white space and comments apart, a byte at a time.
ghost use Rattle.std.specs.Prelude.{◌≡◌, ◌+◌, ◌<◌};
ghost use Rattle.words.specs.Listing.{ListingsReadBack, NumeralsReadBack};
ghost use Rattle.words.specs.Scan.{kind, longer, next, read, digit_only, numeral, in_word, wrong, behind};

use std::fmt;

/// What a byte is to the scanner.
#[derive(Clone, Copy)]
pub enum Kind {
    /// The end of a line.
    Break,
    /// White space within a line.
    Blank,
    /// The start of a comment.
    Hash,
    /// A digit, with its value.
    Digit(u8),
    Other,
}

/// What the bytes so far have come to.
#[derive(Clone, Copy)]
pub enum Mode {
    /// Between two words.
    Between,
    Comment,
    /// In a word, whose digits so far say this number.
    Number(u32),
    /// In a word that is no number of 32 bits.
    Wrong,
}

/// A place in a file: both numbers are counted from 1, and the column counts bytes.
#[derive(Clone, Copy, Debug)]
pub struct Spot {
    pub line: u32,
    pub column: u32,
}

impl fmt::Display for Spot {
    fn fmt<W: fmt::Write>(&self, f: &mut fmt::Formatter<W>) -> fmt::Result {
        write!(f, "{}:{}", self.line, self.column)
    }
}

impl Spot {
    /// The place behind a byte that stands here.
    pub(crate) fn behind(self, byte: Kind) -> Spot
        requires { (self.line < 4294967295) × (self.column < 4294967295) }
        ensures { result ≡ behind self byte }
    {
        match byte {
            Kind::Break => Spot {
                line: self.line + 1,
                column: 1,
            },
            _ => Spot {
                column: self.column + 1,
                ..self
            },
        }
    }
}

impl From<u8> for Kind {
    ghost from_gives = { λ b k. k ≡ kind b };

    fn from(byte: u8) -> Kind {
        match byte {
            b'\n' => Kind::Break,
            b'\t'..=b'\r' | b' ' => Kind::Blank,
            b'#' => Kind::Hash,
            b'0'..=b'9' => Kind::Digit(byte - b'0'),
            _ => Kind::Other,
        }
    }
}

impl Mode {
    /// One digit more to the word.
    fn with_digit(self, digit: u8) -> Mode
        ensures { result ≡ longer self digit }
    {
        match self {
            Mode::Between => Mode::Number(u32::from(digit)),
            Mode::Number(so_far) => {
                let grown = 10 * u64::from(so_far) + u64::from(digit);
                u32::try_from(grown).map_or(Mode::Wrong, Mode::Number)
            }
            Mode::Comment | Mode::Wrong => Mode::Wrong,
        }
    }

    /// What a byte makes of a mode.
    pub fn step(self, byte: Kind) -> Mode
        ensures { result ≡ next self byte }
    {
        match (self, byte) {
            (_, Kind::Break) => Mode::Between,
            (Mode::Comment, _) | (_, Kind::Hash) => Mode::Comment,
            (_, Kind::Blank) => Mode::Between,
            (_, Kind::Digit(digit)) => self.with_digit(digit),
            (_, Kind::Other) => Mode::Wrong,
        }
    }

    /// What a byte makes of a mode where all are to be digits.
    fn digit_step(self, byte: Kind) -> Mode
        ensures { result ≡ digit_only self byte }
    {
        match byte {
            Kind::Digit(digit) => self.with_digit(digit),
            _ => Mode::Wrong,
        }
    }

    /// The word that a mode has read, where it has read one.
    pub fn word(self) -> Option<u32>
        ensures { result ≡ read self }
    {
        match self {
            Mode::Number(number) => Some(number),
            _ => None,
        }
    }

    pub(crate) fn is_in_word(self) -> bool
        ensures { result ≡ in_word self }
    {
        matches!(self, Mode::Number(_) | Mode::Wrong)
    }

    pub(crate) fn is_wrong(self) -> bool
        ensures { result ≡ wrong self }
    {
        matches!(self, Mode::Wrong)
    }
}

/// The number that a text of digits alone says, if it is one of 32 bits.
pub fn number(text: &[u8]) -> Option<u32>
    ensures { result ≡ numeral text.now }
{
    let mode = text.iter().fold(Mode::Between, |mode, byte| {
        mode.digit_step(Kind::from(*byte))
    });
    mode.word()
}

/// Words that are written in decimal, one to a line, are read back, and so is the value of an option.
pub fn words_read_back()
    ensures listings { ListingsReadBack }
    ensures numerals { NumeralsReadBack }
{}
