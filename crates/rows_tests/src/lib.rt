// The tests of the crate rows. They stand apart, since a crate with tests is proved once more for them.
#![tactic(auto)]

ghost use Rattle.std.specs.Prelude.{◌≡◌, ◌<◌, ◌≤◌, ◌∷◌, IfOk};

use rows::{Fault, Refusal, Text, decode};
use std::alloc::{AllocError, Global};

// A text that says so many variables and has such a body.
pub fn text_of(heap: Global, variables: u32, body: &[u32]) -> Result<Vec<u32>, AllocError>
    ensures { IfOk result (λ v. v.items ≡ variables ∷ body.now) }
{
    let mut rows = Vec::new(heap);
    rows.push(variables)?;
    rows.extend_from_slice(body)?;
    Ok(rows)
}

// So many loops, each the body of the one before it: `while me` .. nothing.
pub fn loops(heap: Global, deep: u32) -> Result<Vec<u32>, AllocError> {
    let mut rows = text_of(heap, 0, &[])?;
    for _ in 0..deep {
        rows.extend_from_slice(&[7, 2])?;
    }
    rows.push(0)?;
    Ok(rows)
}

// So many empty statements in a balanced tree of pairs.
pub fn tree(rows: &mut Vec<u32>, leaves: u32) -> Result<(), AllocError> {
    if leaves < 2 {
        rows.push(0)?;
        return Ok(());
    }
    rows.push(1)?;
    tree(rows, leaves / 2)?;
    tree(rows, leaves - leaves / 2)
}

// Whether the rows are refused at this place for this reason.
pub fn refused(heap: Global, rows: &[u32], at: usize, why: Fault) -> Result<bool, AllocError> {
    let mut ends = vec![in heap; 0; rows.len()]?;
    Ok(decode(rows, &mut ends) == Err(Refusal { at, why }))
}

// Whether the rows are a text with so many variables, statements and levels.
pub fn accepted(
    heap: Global,
    rows: &[u32],
    variables: u32,
    statements: usize,
    deep: u32,
) -> Result<bool, AllocError> {
    let mut ends = vec![in heap; 0; rows.len()]?;
    let text = Text {
        variables,
        statements,
        words: rows.len(),
        deep,
    };
    Ok(decode(rows, &mut ends) == Ok(text))
}

#[cfg(test)]
mod tests {
    use super::*;
    use std::test::Fail;

    const SUM: [u32; 12] = [1, 1, 3, 0, 2, 1, 8, 5, 0, 0, 1, 0];

    #[test]
    fn first_example(rt: HostRuntime) -> Result<(), Fail> {
        assert!(rt; accepted(rt.alloc(), &SUM, 1, 5, 4)?);
        let mut ends = [9; 14];
        assert!(rt; decode(&SUM, &mut ends).is_ok());
        assert!(rt; ends == [0, 12, 5, 0, 5, 12, 7, 12, 10, 0, 12, 0, 9, 9]);
        let mut short = [0; 11];
        assert_eq!(rt;
            decode(&SUM, &mut short),
            Err(Refusal {
                at: 11,
                why: Fault::ShortTable
            })
        );
        Ok(())
    }

    #[test]
    fn faults(rt: HostRuntime) -> Result<(), Fail> {
        let heap = rt.alloc();
        assert!(rt; refused(heap, &[], 0, Fault::EndsEarly)?);
        assert!(rt; refused(heap, &[0], 1, Fault::EndsEarly)?);
        assert!(rt; refused(heap, &[1, 2], 2, Fault::EndsEarly)?);
        assert!(rt; refused(heap, &[0, 1, 0], 3, Fault::EndsEarly)?);
        assert!(rt; refused(heap, &[0, 4, 2, 0], 4, Fault::EndsEarly)?);
        assert!(rt; refused(heap, &[0, 4, 4], 3, Fault::EndsEarly)?);
        assert!(rt; refused(heap, &[0, 1000], 1, Fault::NoStatement)?);
        assert!(rt; refused(heap, &[0, 6, 2, 0, 1000], 4, Fault::NoStatement)?);
        assert!(rt; refused(heap, &[0, 4, 1000], 2, Fault::NoExpression)?);
        assert!(rt; refused(heap, &[0, 4, 4, 1000, 2, 2], 3, Fault::NoOperation)?);
        assert!(rt; refused(heap, &[1, 2, 1, 2], 2, Fault::NoVariable)?);
        assert!(rt; refused(heap, &[0, 3, 0, 2], 2, Fault::NoVariable)?);
        assert!(rt; refused(heap, &[2, 4, 1, 2, 2], 3, Fault::NoVariable)?);
        assert!(rt; refused(heap, &[0, 0, 0], 2, Fault::AfterEnd)?);
        Ok(())
    }

    #[test]
    fn limits(rt: HostRuntime) -> Result<(), Fail> {
        let heap = rt.alloc();
        assert!(rt; accepted(heap, &[256, 2, 255, 2], 256, 1, 2)?);
        assert!(rt; refused(heap, &[256, 2, 256, 2], 2, Fault::NoVariable)?);
        assert!(rt; refused(heap, &[257, 0], 0, Fault::TooManyVariables)?);
        assert!(rt; accepted(heap, &loops(heap, 250)?, 0, 251, 251)?);
        assert!(rt; accepted(heap, &loops(heap, 255)?, 0, 256, 256)?);
        // the test of the loop at level 256 is one too deep
        assert!(rt; refused(heap, &loops(heap, 256)?, 512, Fault::TooDeep)?);
        Ok(())
    }

    #[test]
    fn long_texts(rt: HostRuntime) -> Result<(), Fail> {
        let heap = rt.alloc();
        let mut rows = text_of(heap, 0, &[])?;
        tree(&mut rows, 15_001)?;
        assert!(rt; accepted(heap, &rows, 0, 30_001, 15)?);
        rows.truncate(1);
        tree(&mut rows, 32_768)?;
        assert!(rt; accepted(heap, &rows, 0, 65_535, 16)?);
        rows.push(0)?;
        assert!(rt; refused(heap, &rows, 65_536, Fault::TooManyWords)?);
        Ok(())
    }
}
