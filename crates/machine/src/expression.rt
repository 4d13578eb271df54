// The value of an expression. It depends on the thread alone: no expression reads the memory.
ghost use Rattle.std.specs.Prelude.{◌≡◌};
ghost use Rattle.model.specs.Kernel.{Expr, operate};
ghost use Rattle.machine.specs.Stands.{source};
ghost use Rattle.machine.specs.Values.{ExprHere, ExprAt, SomeOperation, FoundAt, Valued};

use crate::script::{Script, expression_head, operation_of};
use model::Op;
use rows::head::Expression;

// What the value of an expression depends on: the thread's variables, its number, and how many threads
// there are. Two numbers and no `Who`: to an expression they are words like any other. The script goes beside it, where heads,
// ends and operations are found.
#[derive(Clone, Copy)]
pub struct Seen<'a> {
    pub variables: &'a [u32],
    pub me: u32,
    pub all: u32,
}

// Words have 32 bits, and wrap on purpose.
fn apply(op: Op, x: u32, y: u32) -> u32
    ensures { result ≡ operate op x y }
{
    match op {
        Op::Add => x.wrapping_add(y),
        Op::Sub => x.wrapping_sub(y),
        Op::Mul => x.wrapping_mul(y),
        Op::Div => if y == 0 { 0 } else { x / y },
        Op::Rem => if y == 0 { x } else { x % y },
        Op::Less => u32::from(x < y),
        Op::Same => u32::from(x == y),
    }
}

// The value of what stands there, if it has no parts: that is read in place.
fn operand_at(script: &Script, seen: &Seen, at: usize) -> Option<u32>
    requires { ExprHere (source script.now) seen.now at }
    ensures { FoundAt (source script.now) seen.now at result }
{
    match expression_head(script, at) {
        Expression::Number(n) => Some(n),
        Expression::Variable(x) => Some(seen.variables[x as usize]),
        Expression::Me => Some(seen.me),
        Expression::All => Some(seen.all),
        Expression::Operation(_) => None,
    }
}

// The value of the operation that stands there, at most `depth` deep. Its number is read last, so that little has to
// be kept while its operands are evaluated.
#[cycle(value)]
fn operation_at(script: &Script, seen: &Seen, at: usize, depth: u32) -> u32
    requires { SomeOperation (source script.now) seen.now at depth }
    ensures { Valued (source script.now) seen.now at result }
{
    let x = value_at(script, seen, at + 2, depth - 1);
    let y = value_at(script, seen, script.ends[at + 2] as usize, depth - 1);
    apply(operation_of(script.rows[at + 1]), x, y)
}

// The value of the expression that stands there, at most `depth` deep. Most operands have no parts, and take no call:
// only an operation does.
#[cycle(value)]
#[inline(always)]
pub fn value_at(script: &Script, seen: &Seen, at: usize, depth: u32) -> u32
    requires { ExprAt (source script.now) seen.now at depth }
    ensures { Valued (source script.now) seen.now at result }
{
    match operand_at(script, seen, at) {
        Some(x) => x,
        None => operation_at(script, seen, at, depth),
    }
}
