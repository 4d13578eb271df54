// Heads: the first words of a statement or an expression, up to the parts that stand in it.
ghost use Rattle.std.specs.Prelude.{◌≡◌, ◌+◌, ◌<◌, ◌≤◌, ◌∷◌, length, drop, IfOk};
ghost use Rattle.rows.specs.Heads.{word_at, variable_at, operation_at, expression_at, statement_at, answer};
ghost use Rattle.rows.specs.Parts.{expression_row, operands, statement_row, inner_exprs, inner_stmts, own, head_of};
ghost use Rattle.rows.specs.Reader.{head_at};
ghost use Rattle.rows.specs.declared.head.Kind.TheVariants.{Expression as AnExpression, Statement as AStatement};

use crate::refusals::{Fault, Refusal};
use model::Op;

#[derive(Clone, Copy)]
pub enum Expression {
    Number(u32),
    Variable(u32),
    Me,
    All,
    Operation(Op),
}

impl Expression {
    // How many words the head has.
    pub fn words(self) -> usize
        ensures value { result ≡ length (expression_row self) }
        ensures some { 0 < result }
    {
        match self {
            Expression::Operation(_) | Expression::Number(_) | Expression::Variable(_) => 2,
            Expression::Me | Expression::All => 1,
        }
    }

    // How many expressions follow the head.
    pub fn operands(self) -> u32
        ensures value { result ≡ operands self }
        ensures few { result ≤ 2 }
    {
        match self {
            Expression::Operation(_) => 2,
            _ => 0,
        }
    }
}

#[derive(Clone, Copy)]
pub enum Statement {
    Skip,
    Seq,
    Assign(u32),
    Read(u32),
    Write,
    Increase,
    If,
    While,
    Wait,
}

impl Statement {
    // How many words the head has.
    pub fn words(self) -> usize
        ensures value { result ≡ length (statement_row self) }
        ensures some { 0 < result }
    {
        match self {
            Statement::Assign(_) | Statement::Read(_) => 2,
            _ => 1,
        }
    }

    // How many expressions follow the head.
    pub fn expressions(self) -> u32
        ensures value { result ≡ inner_exprs self }
        ensures few { result ≤ 2 }
    {
        match self {
            Statement::Skip | Statement::Seq | Statement::Wait => 0,
            Statement::Write | Statement::Increase => 2,
            _ => 1,
        }
    }

    // How many statements follow these.
    pub fn statements(self) -> u32
        ensures value { result ≡ inner_stmts self }
        ensures few { result ≤ 2 }
    {
        match self {
            Statement::Seq | Statement::If => 2,
            Statement::While => 1,
            _ => 0,
        }
    }
}

// A part of a text is one or the other.
#[derive(Clone, Copy)]
pub(crate) enum Kind {
    Expression,
    Statement,
}

impl Kind {
    // How many statements a part of this kind is, without those that stand in it.
    pub(crate) fn statements(self) -> usize
        ensures { result ≡ own self }
    {
        match self {
            Kind::Expression => 0,
            Kind::Statement => 1,
        }
    }
}

// How many words a head has, and how many expressions and then how many statements follow it.
#[derive(Clone, Copy)]
pub(crate) struct Head {
    pub words: usize,
    pub expressions: u32,
    pub statements: u32,
}

impl From<Expression> for Head {
    fn from(head: Expression) -> Head
        ensures { result ≡ head_of AnExpression head }
    {
        Head {
            words: head.words(),
            expressions: head.operands(),
            statements: 0,
        }
    }
}

impl From<Statement> for Head {
    fn from(head: Statement) -> Head
        ensures { result ≡ head_of AStatement head }
    {
        Head {
            words: head.words(),
            expressions: head.expressions(),
            statements: head.statements(),
        }
    }
}

// The word at such a position.
pub fn word(rows: &[u32], at: usize) -> Result<u32, Refusal>
    ensures value { result ≡ answer (λ x. x) (word_at at (drop at rows.now)) }
    ensures front { IfOk result (λ x. drop at rows.now ≡ x ∷ drop (at + 1) rows.now) }
    ensures within { IfOk result (λ x. at < length rows.now) }
{
    rows.get(at).copied().ok_or(Fault::EndsEarly.at(at))
}

// The words of a text that has so many variables.
#[derive(Clone, Copy)]
pub struct Words<'a> {
    pub rows: &'a [u32],
    pub variables: u32,
}

impl Words<'_> {
    fn variable(self, at: usize) -> Result<u32, Refusal>
        ensures { result ≡ answer (λ x. x) (variable_at self.entry.variables at (drop at self.entry.rows.now)) }
    {
        let x = word(self.rows, at)?;
        if x < self.variables {
            Ok(x)
        } else {
            Err(Fault::NoVariable.at(at))
        }
    }

    fn operation(self, at: usize) -> Result<Op, Refusal>
        ensures { result ≡ answer (λ x. x) (operation_at at (drop at self.entry.rows.now)) }
    {
        Op::try_from(word(self.rows, at)?).or(Err(Fault::NoOperation.at(at)))
    }

    // The head of an expression.
    pub fn expression_head(self, at: usize) -> Result<Expression, Refusal>
        ensures { result ≡ answer (λ x. x) (expression_at self.entry.variables at (drop at self.entry.rows.now)) }
    {
        match word(self.rows, at)? {
            0 => Ok(Expression::Number(word(self.rows, at + 1)?)),
            1 => Ok(Expression::Variable(self.variable(at + 1)?)),
            2 => Ok(Expression::Me),
            3 => Ok(Expression::All),
            4 => Ok(Expression::Operation(self.operation(at + 1)?)),
            _ => Err(Fault::NoExpression.at(at)),
        }
    }

    // The head of a statement.
    pub fn statement_head(self, at: usize) -> Result<Statement, Refusal>
        ensures { result ≡ answer (λ x. x) (statement_at self.entry.variables at (drop at self.entry.rows.now)) }
    {
        match word(self.rows, at)? {
            0 => Ok(Statement::Skip),
            1 => Ok(Statement::Seq),
            2 => Ok(Statement::Assign(self.variable(at + 1)?)),
            3 => Ok(Statement::Read(self.variable(at + 1)?)),
            4 => Ok(Statement::Write),
            5 => Ok(Statement::Increase),
            6 => Ok(Statement::If),
            7 => Ok(Statement::While),
            8 => Ok(Statement::Wait),
            _ => Err(Fault::NoStatement.at(at)),
        }
    }

    // The head of a part of this kind.
    pub(crate) fn head(self, kind: Kind, at: usize) -> Result<Head, Refusal>
        ensures { result ≡ answer (head_of kind) (head_at kind self.entry.variables at (drop at self.entry.rows.now)) }
    {
        Ok(match kind {
            Kind::Expression => Head::from(self.expression_head(at)?),
            Kind::Statement => Head::from(self.statement_head(at)?),
        })
    }
}
