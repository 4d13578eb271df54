// Decides whether rows are a text, and fills the table of ends.
ghost use Rattle.std.specs.Prelude.{◌≡◌, nat_lt};
ghost use Rattle.rows.specs.Decoded.{DecodePost};

use crate::head::{Kind, Words, word};
use crate::reader::Reader;
use crate::refusals::{Fault, Refusal};

// The limits of a text.
pub const MOST_WORDS: usize = 65_536;

pub const MOST_VARIABLES: u32 = 256;

pub const MOST_DEEP: u32 = 256;

// How large a text is; `deep` is how deep statements and expressions stand in one another.
#[derive(Clone, Copy, Debug, PartialEq, Eq)]
pub struct Text {
    pub variables: u32,
    pub statements: usize,
    pub words: usize,
    pub deep: u32,
}

// Each test that decides is a function with a contract of its own.
fn too_many_words(words: usize) -> bool
    ensures { result ≡ nat_lt 65536 words }
{
    MOST_WORDS < words
}

fn too_many_variables(variables: u32) -> bool
    ensures { result ≡ nat_lt 256 variables }
{
    MOST_VARIABLES < variables
}

fn words_behind(end: usize, words: usize) -> bool
    ensures { result ≡ nat_lt end words }
{
    end < words
}

// Whether the rows are a text, and how large it is. For a text the table then holds, beside each word at
// which a statement or an expression begins, the position behind it, and beside each other word 0. The
// table is as long as the rows, or longer; of a refusal it holds nothing of use.
pub fn decode(rows: &[u32], ends: &mut [u32]) -> Result<Text, Refusal>
    ensures { DecodePost rows.now ends.old ends.new result }
{
    let words = rows.len();
    if ends.len() < words {
        return Err(Fault::ShortTable.at(ends.len()));
    }
    if too_many_words(words) {
        return Err(Fault::TooManyWords.at(MOST_WORDS));
    }
    let variables = word(rows, 0)?;
    if too_many_variables(variables) {
        return Err(Fault::TooManyVariables.at(0));
    }
    ends[..words].fill(0);
    let text = Words { rows, variables };
    let whole = Reader { text, ends }.part(Kind::Statement, 1, MOST_DEEP)?;
    if words_behind(whole.end, words) {
        return Err(Fault::AfterEnd.at(whole.end));
    }
    Ok(Text {
        variables,
        statements: whole.statements,
        words,
        deep: whole.deep,
    })
}
