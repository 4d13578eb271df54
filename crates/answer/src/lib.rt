// What the programs print: the size of a text, where rows are no text, whether a text is even, and what is left of a run.
//
// Proved: how many threads are told to be in a state (specs/States.antt). All else is only tested.
#![tactic(auto)]

ghost use Rattle.std.specs.Prelude.{◌≡◌};
ghost use Rattle.answer.specs.States.{in_state};

use model::{Clash, Place, Status, ThreadId};
use rows::{Fault, Refusal, Text};
use std::fmt;

/// The size of a text.
#[derive(Clone, Copy)]
pub struct Size(pub Text);

impl fmt::Display for Size {
    fn fmt<W: fmt::Write>(&self, f: &mut fmt::Formatter<W>) -> fmt::Result {
        let Text {
            variables,
            statements,
            words,
            deep,
        } = self.0;
        write!(
            f,
            "text: {variables} variables, {statements} statements, {words} words, {deep} deep"
        )
    }
}

/// Where rows are no text, and why.
#[derive(Drop)]
pub struct NoText<'a> {
    pub rows: &'a [u32],
    pub refusal: Refusal,
}

impl NoText<'_> {
    // The reasons are told here and not where `rows` declares them, since one of them reads the rows.
    fn why<W: fmt::Write>(&self, f: &mut fmt::Formatter<W>) -> fmt::Result {
        match self.refusal.why {
            Fault::EndsEarly => f.write_str("ends too early"),
            Fault::NoStatement => f.write_str("no such statement, they are 0 to 8"),
            Fault::NoExpression => f.write_str("no such expression, they are 0 to 4"),
            Fault::NoOperation => f.write_str("no such operation, they are 0 to 6"),
            Fault::NoVariable => {
                let variables = self.rows.first().copied().unwrap_or(0);
                write!(f, "a variable that the text hasn't, it has {variables}")
            }
            Fault::TooDeep => f.write_str("too deep, 256 at most"),
            Fault::AfterEnd => f.write_str("words after the end"),
            Fault::TooManyWords => f.write_str("too many words, 65536 at most"),
            Fault::TooManyVariables => f.write_str("too many variables, 256 at most"),
            Fault::ShortTable => f.write_str("the table of ends is shorter than the rows"),
        }
    }
}

impl fmt::Display for NoText<'_> {
    fn fmt<W: fmt::Write>(&self, f: &mut fmt::Formatter<W>) -> fmt::Result {
        let at = self.refusal.at;
        match self.rows.get(at) {
            Some(word) => write!(f, "word {at} is {word}: ")?,
            None => write!(f, "word {at} is missing: ")?,
        }
        self.why(f)
    }
}

/// Items one behind the other, with a blank before each.
#[derive(Clone, Copy)]
struct Listed<'a, T>(&'a [T]);

impl<T: fmt::Display> fmt::Display for Listed<'_, T> {
    fn fmt<W: fmt::Write>(&self, f: &mut fmt::Formatter<W>) -> fmt::Result {
        for item in self.0 {
            write!(f, " {item}")?;
        }
        Ok(())
    }
}

/// What a run leaves: the words of the memory, and a number for each thread.
#[derive(Clone, Copy, PartialEq)]
pub struct Left<'a> {
    pub memory: &'a [u32],
    pub states: &'a [u8],
}

impl fmt::Display for Left<'_> {
    fn fmt<W: fmt::Write>(&self, f: &mut fmt::Formatter<W>) -> fmt::Result {
        let memory = Listed(self.memory);
        let states = Listed(self.states);
        write!(f, "memory:{memory}\nstates:{states}")
    }
}

/// How many threads are in a state.
fn threads_in(state: u8, states: &[u8]) -> usize
    ensures { result ≡ in_state state states.now }
{
    states.iter().filter(|each| **each == state).count()
}

/// A text is even, and its threads are left in these states.
#[derive(Drop)]
pub struct Even<'a>(pub &'a [u8]);

impl fmt::Display for Even<'_> {
    fn fmt<W: fmt::Write>(&self, f: &mut fmt::Formatter<W>) -> fmt::Result {
        let ended = threads_in(Status::Ended as u8, self.0);
        let out = threads_in(Status::OutOfTurns as u8, self.0);
        write!(f, "even: {ended} threads ended, {out} out of turns")
    }
}

/// A text is uneven: two threads clash at a place.
#[derive(Clone, Copy)]
pub struct Uneven(pub Clash);

impl fmt::Display for Uneven {
    fn fmt<W: fmt::Write>(&self, f: &mut fmt::Formatter<W>) -> fmt::Result {
        let Clash {
            first: ThreadId(first),
            second: ThreadId(second),
            place: Place(place),
        } = self.0;
        write!(
            f,
            "uneven: threads {first} and {second} clash at place {place}"
        )
    }
}

#[cfg(test)]
mod tests {
    use super::*;
    use std::test::Fail;

    #[test]
    fn reasons(rt: HostRuntime) -> Result<(), Fail> {
        let rows: [u32; 6] = [3, 0, 7, 7, 7, 9];
        for (at, why, told) in [
            (6, Fault::EndsEarly, "word 6 is missing: ends too early"),
            (
                5,
                Fault::NoStatement,
                "word 5 is 9: no such statement, they are 0 to 8",
            ),
            (
                5,
                Fault::NoExpression,
                "word 5 is 9: no such expression, they are 0 to 4",
            ),
            (
                5,
                Fault::NoOperation,
                "word 5 is 9: no such operation, they are 0 to 6",
            ),
            (
                5,
                Fault::NoVariable,
                "word 5 is 9: a variable that the text hasn't, it has 3",
            ),
            (1, Fault::TooDeep, "word 1 is 0: too deep, 256 at most"),
            (2, Fault::AfterEnd, "word 2 is 7: words after the end"),
            (
                2,
                Fault::TooManyWords,
                "word 2 is 7: too many words, 65536 at most",
            ),
            (
                0,
                Fault::TooManyVariables,
                "word 0 is 3: too many variables, 256 at most",
            ),
        ] {
            let no_text = NoText {
                rows: &rows,
                refusal: Refusal { at, why },
            };
            assert_eq!(rt; format!(in rt.alloc(); "{no_text}")?.as_str(), told);
        }
        Ok(())
    }

    #[test]
    fn verdicts(rt: HostRuntime) -> Result<(), Fail> {
        let heap = rt.alloc();
        for (states, told) in [
            (&[] as &[u8], "even: 0 threads ended, 0 out of turns"),
            (&[2, 3, 2], "even: 2 threads ended, 1 out of turns"),
        ] {
            assert_eq!(rt; format!(in heap; "{}", Even(states))?.as_str(), told);
        }
        let uneven = Uneven(Clash {
            first: ThreadId(0),
            second: ThreadId(17),
            place: Place(4294967296),
        });
        assert_eq!(rt;
            format!(in heap; "{uneven}")?.as_str(),
            "uneven: threads 0 and 17 clash at place 4294967296"
        );
        Ok(())
    }

    #[test]
    fn what_is_left(rt: HostRuntime) -> Result<(), Fail> {
        let heap = rt.alloc();
        let some = Left {
            memory: &[17, 4294967295],
            states: &[2, 3],
        };
        assert_eq!(rt;
            format!(in heap; "{some}")?.as_str(),
            "memory: 17 4294967295\nstates: 2 3"
        );
        let none = Left {
            memory: &[],
            states: &[],
        };
        assert_eq!(rt; format!(in heap; "{none}")?.as_str(), "memory:\nstates:");
        Ok(())
    }
}
