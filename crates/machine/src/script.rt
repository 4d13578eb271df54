// A text as the engine sees it, and the heads that it finds there. `rows::head` reads the same heads with a refusal for
// each word; the engine reads rows that were decoded, and a step has nothing to refuse.
ghost use Rattle.std.specs.Prelude.{◌≡◌};
ghost use Rattle.machine.specs.Begins.{Scripted};
ghost use Rattle.machine.specs.Stands.{source, ExprHead, StmtHead, operation_named, expression_at, statement_at};

use model::Op;
use rows::head::{Expression, Statement};

// The rows of a text, the table of ends beside them, and how many variables each thread has. The table is a slice of its own,
// since it is lent.
#[derive(Clone, Copy)]
pub struct Script<'a> {
    pub rows: &'a [u32],
    pub ends: &'a [u32],
    pub variables: u32,
}

impl<'a> Script<'a> {
    // With the rows and the table of a text that was decoded, the script of that text.
    pub fn new(rows: &'a [u32], ends: &'a [u32], variables: u32) -> Script<'a>
        ensures { Scripted rows.now ends.now variables result }
    {
        Script {
            rows,
            ends,
            variables,
        }
    }
}

// The operation of a number.
pub fn operation_of(code: u32) -> Op
    ensures { result ≡ operation_named code }
{
    Op::try_from(code).unwrap_or(Op::Same)
}

// The head of the expression that stands there. An operation is told first: that leaves so few cases that they are
// compiled to tests in place of a jump table, which is faster for what most operands are.
pub fn expression_head(script: &Script, at: usize) -> Expression
    requires { ExprHead (source script.now) at }
    ensures { result ≡ expression_at (source script.now) at }
{
    let word = script.rows[at];
    if word > 3 {
        return Expression::Operation(operation_of(script.rows[at + 1]));
    }
    match word {
        0 => Expression::Number(script.rows[at + 1]),
        1 => Expression::Variable(script.rows[at + 1]),
        2 => Expression::Me,
        _ => Expression::All,
    }
}

// The head of the statement that stands there.
pub fn statement_head(script: &Script, at: usize) -> Statement
    requires { StmtHead (source script.now) at }
    ensures { result ≡ statement_at (source script.now) at }
{
    match script.rows[at] {
        0 => Statement::Skip,
        1 => Statement::Seq,
        2 => Statement::Assign(script.rows[at + 1]),
        3 => Statement::Read(script.rows[at + 1]),
        4 => Statement::Write,
        5 => Statement::Increase,
        6 => Statement::If,
        7 => Statement::While,
        _ => Statement::Wait,
    }
}
