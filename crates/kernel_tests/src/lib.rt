// The tests of the crate kernel: the worked examples, each in twenty drawn orders, by `run` and led step by step, and too
// little lent memory. They stand apart, since a crate with tests is proved once more for them.
#![tactic(auto)]

ghost use Rattle.std.specs.Prelude.{◌≡◌, ◌^◌, ◌<◌, length};
ghost use Rattle.kernel.specs.Says.{floor as words_asked};

use kernel::draw::Draw;
use kernel::drawn::draw_order;
use kernel::led::{lead, meets};
use kernel::{Clash, Job, Lent, Ran, Refused, run};
use std::alloc::{AllocError, Global};

// A job, and the memory that it is run on.
#[derive(Clone, Copy)]
pub struct Case<'a> {
    pub job: Job<'a>,
    pub memory: &'a [u32],
}

// What comes of it: every order leaves this memory and these states; or two threads clash at a place. Neither is an error, so
// it is no `Result`.
#[derive(Clone, Copy)]
pub enum Expected<'a> {
    Even(&'a [u32], &'a [u8]),
    Uneven(Clash),
}

// What `run` answers and leaves. The memory is as the case has it before, and each state byte is 9.
#[derive(Drop)]
pub struct Left {
    pub ran: Ran,
    pub memory: Vec<u32>,
    pub states: Vec<u8>,
}

// Runs the case with so many state bytes and work words. Tests name all that is lent, so it goes to the helpers as it is.
pub fn run_lent(heap: Global, case: Case, bytes: usize, words: usize) -> Result<Left, AllocError> {
    let mut memory = case.memory.to_vec(heap)?;
    let mut states = vec![in heap; 9u8; bytes]?;
    let mut work = vec![in heap; 7; words]?;
    let ran = run(
        case.job.rows,
        case.job.threads,
        case.job.turns,
        &mut memory,
        &mut states,
        &mut work,
    );
    Ok(Left {
        ran,
        memory,
        states,
    })
}

// How many work words the case asks for: computed by itself, and held to what `run` asks for by its contract.
pub fn floor(case: Case) -> usize
    ensures { length case.entry.job.rows.now < 2 ^ 32 → length case.entry.memory.now < 2 ^ 32 → result ≡ words_asked (length case.entry.job.rows.now) (length case.entry.memory.now) case.entry.job.threads }
{
    (1024 * case.job.threads as usize + 4096)
        .saturating_add(case.job.rows.len().saturating_mul(8))
        .saturating_add(case.memory.len().saturating_mul(4))
}

// Whether nothing was handed out.
fn untouched(left: &Left, case: Case) -> bool {
    *left.memory.as_slice() == *case.memory && left.states.iter().all(|state| *state == 9)
}

// Whether `run` comes to what is expected, with no more lent than it asks for, and three bytes more than
// there are threads, which stay as they are.
pub fn runs_so(heap: Global, case: Case, expected: Expected) -> Result<bool, AllocError> {
    let threads = case.job.threads as usize;
    let left = run_lent(heap, case, threads + 3, floor(case))?;
    Ok(match (left.ran, expected) {
        (Ran::Even, Expected::Even(memory, states)) => {
            let nines: &[u8] = &[9; 3];
            let (told, others) = left
                .states
                .as_slice()
                .split_at(threads.min(left.states.len()));
            *left.memory.as_slice() == *memory && *told == *states && *others == *nines
        }
        (Ran::Uneven(clash), Expected::Uneven(told)) => clash == told && untouched(&left, case),
        _ => false,
    })
}

// Whether `run` answers few with so much lent, and leaves everything as it was.
pub fn runs_few(heap: Global, case: Case, bytes: usize, words: usize) -> Result<bool, AllocError> {
    let left = run_lent(heap, case, bytes, words)?;
    Ok(left.ran == Ran::Few && untouched(&left, case))
}

// Whether `run` answers even with so much lent.
pub fn runs_even(heap: Global, case: Case, bytes: usize, words: usize) -> Result<bool, AllocError> {
    Ok(run_lent(heap, case, bytes, words)?.ran == Ran::Even)
}

// Whether `run` answers that the rows are no text, with no more lent than it asks for, and leaves everything.
pub fn runs_no_text(heap: Global, case: Case) -> Result<bool, AllocError> {
    let left = run_lent(heap, case, case.job.threads as usize, floor(case))?;
    Ok(left.ran == Ran::NoKernel && untouched(&left, case))
}

// What drawn orders of a case are lent, with no more than they take, as the trial's are not. Each finds what the one before
// it left.
#[derive(Drop)]
struct Desk {
    ends: Vec<u32>,
    marks: Vec<u32>,
    work: Vec<u32>,
    states: Vec<u8>,
    draw: Draw,
}

impl Desk {
    fn new(heap: Global, case: Case) -> Result<Desk, AllocError> {
        Ok(Desk {
            ends: vec![in heap; 0; case.job.rows.len()]?,
            marks: vec![in heap; 0; case.memory.len().max(1).saturating_mul(2)]?,
            work: vec![in heap; 0; 1024 * case.job.threads as usize]?,
            states: vec![in heap; 9u8; case.job.threads as usize]?,
            draw: Draw::new(1),
        })
    }

    // Runs the case in one more order, and gives what came of it and the memory that it left.
    fn run_order(
        &mut self,
        heap: Global,
        case: Case,
    ) -> Result<(Result<bool, Refused>, Vec<u32>), AllocError> {
        let mut memory = case.memory.to_vec(heap)?;
        let lent = Lent {
            ends: &mut self.ends,
            work: &mut self.work,
            marks: &mut self.marks,
        };
        let drawn = draw_order(
            case.job,
            &mut memory,
            &mut self.states,
            lent,
            &mut self.draw,
        );
        Ok((drawn, memory))
    }
}

// Whether each of twenty orders ends with a clash, or each without one and with this memory and these states. Where each
// clashes what they leave is chance, and is not looked at; so it is a flag and no `Expected`: no clash is named.
pub fn each_order(
    heap: Global,
    case: Case,
    clash: bool,
    left: &[u32],
    states: &[u8],
) -> Result<bool, AllocError> {
    let mut desk = Desk::new(heap, case)?;
    for _ in 0..20 {
        let (drawn, memory) = desk.run_order(heap, case)?;
        let Ok(clashed) = drawn else {
            return Ok(false);
        };
        let alike = clash || (*memory.as_slice() == *left && *desk.states.as_slice() == *states);
        if clashed != clash || !alike {
            return Ok(false);
        }
    }
    Ok(true)
}

// Whether some of twenty orders leaves this memory.
pub fn some_order(heap: Global, case: Case, left: &[u32]) -> Result<bool, AllocError> {
    let mut desk = Desk::new(heap, case)?;
    for _ in 0..20 {
        let (_, memory) = desk.run_order(heap, case)?;
        if *memory.as_slice() == *left {
            return Ok(true);
        }
    }
    Ok(false)
}

// Whether the order of `run`, led step by step, ends in the memory that is expected, or meets the clash again. It is lent
// as much as `run`.
pub fn led_so(heap: Global, case: Case, expected: Expected) -> Result<bool, AllocError> {
    let mut ends = vec![in heap; 0; case.job.rows.len()]?;
    let mut marks = vec![in heap; 7; case.memory.len().max(1).saturating_mul(2)]?;
    let mut work = vec![in heap; 7; floor(case)]?;
    let mut memory = case.memory.to_vec(heap)?;
    let lent = Lent {
        ends: &mut ends,
        work: &mut work,
        marks: &mut marks,
    };
    let led = lead(case.job, &mut memory, lent);
    Ok(match expected {
        Expected::Even(left, _) => led.is_ok() && *memory.as_slice() == *left,
        Expected::Uneven(told) => meets(led, told),
    })
}

// Whether `run`, and its order led step by step, both come to what is expected.
pub fn agree(heap: Global, case: Case, expected: Expected) -> Result<bool, AllocError> {
    Ok(runs_so(heap, case, expected)? && led_so(heap, case, expected)?)
}

// Whether an order is refused with so much lent for the sum by two threads.
pub fn few(
    heap: Global,
    ends: usize,
    states: usize,
    work: usize,
    marks: usize,
) -> Result<bool, AllocError> {
    let mut ends = vec![in heap; 0; ends]?;
    let mut states = vec![in heap; 9u8; states]?;
    let mut work = vec![in heap; 0; work]?;
    let mut marks = vec![in heap; 0; marks]?;
    let rows = [1, 1, 3, 0, 2, 1, 8, 5, 0, 0, 1, 0];
    let mut memory = [5, 7];
    let mut draw = Draw::new(1);
    let job = Job {
        rows: &rows,
        threads: 2,
        turns: 9,
    };
    let lent = Lent {
        ends: &mut ends,
        work: &mut work,
        marks: &mut marks,
    };
    let drawn = draw_order(job, &mut memory, &mut states, lent, &mut draw);
    Ok(matches!(drawn, Err(Refused::Few)))
}

#[cfg(test)]
mod tests {
    use super::*;
    use model::{Place, ThreadId};
    use std::test::Fail;

    const ROTATE: [u32; 24] = [
        1, 1, 4, 2, 2, 1, 8, 1, 3, 0, 4, 4, 4, 0, 2, 0, 1, 3, 1, 8, 4, 2, 1, 0,
    ];

    const ROTATE_NO_WAIT: [u32; 22] = [
        1, 1, 4, 2, 2, 1, 8, 1, 3, 0, 4, 4, 4, 0, 2, 0, 1, 3, 4, 2, 1, 0,
    ];

    fn case<'a>(rows: &'a [u32], threads: u32, turns: u32, memory: &'a [u32]) -> Case<'a> {
        let job = Job {
            rows,
            threads,
            turns,
        };
        Case { job, memory }
    }

    fn uneven(first: u32, second: u32, place: usize) -> Expected<'static> {
        Expected::Uneven(Clash {
            first: ThreadId(first),
            second: ThreadId(second),
            place: Place(place),
        })
    }

    #[test]
    fn sums(rt: HostRuntime) -> Result<(), Fail> {
        let heap = rt.alloc();
        let sum = case(&[1, 1, 3, 0, 2, 1, 8, 5, 0, 0, 1, 0], 2, 9, &[5, 7]);
        assert!(rt; each_order(heap, sum, false, &[17, 7], &[2, 2])?);
        let no_wait = case(&[1, 1, 3, 0, 2, 5, 0, 0, 1, 0], 2, 9, &[5, 7]);
        assert!(rt; each_order(heap, no_wait, true, &[], &[])?);
        let many = case(&[0, 5, 0, 0, 0, 1], 500, 1, &[4_294_967_000]);
        let ended = vec![in heap; 2u8; 500]?;
        assert!(rt; each_order(heap, many, false, &[204], ended.as_slice())?);
        Ok(())
    }

    #[test]
    fn writes(rt: HostRuntime) -> Result<(), Fail> {
        let heap = rt.alloc();
        let rows = [0, 4, 0, 0, 2];
        assert!(rt; each_order(heap, case(&rows, 2, 1, &[9]), true, &[], &[])?);
        assert!(rt; each_order(heap, case(&rows, 1, 1, &[9]), false, &[0], &[2])?);
        assert!(rt; each_order(heap, case(&rows, 2, 1, &[]), true, &[], &[])?);
        let operations = case(
            &[0, 1, 4, 0, 0, 4, 4, 0, 9, 0, 0, 4, 0, 1, 4, 1, 0, 0, 0, 1],
            1,
            1,
            &[0, 0],
        );
        assert!(rt; each_order(heap, operations, false, &[9, 4_294_967_295], &[2])?);
        Ok(())
    }

    #[test]
    fn turns_and_waits(rt: HostRuntime) -> Result<(), Fail> {
        let heap = rt.alloc();
        assert!(rt;
            each_order(
                heap,
                case(&[0, 7, 0, 1, 0], 3, 5, &[]),
                false,
                &[],
                &[3, 3, 3],
            )?
        );
        let half = case(&[0, 6, 2, 8, 7, 0, 1, 0], 2, 5, &[]);
        assert!(rt; each_order(heap, half, false, &[], &[3, 2])?);
        let broadcast = case(
            &[
                1, 1, 6, 2, 0, 4, 0, 0, 0, 7, 1, 8, 1, 3, 0, 0, 0, 1, 8, 4, 2, 1, 0,
            ],
            3,
            1,
            &[0, 0, 0],
        );
        assert!(rt; each_order(heap, broadcast, false, &[7, 7, 7], &[2, 2, 2])?);
        Ok(())
    }

    #[test]
    fn rotations(rt: HostRuntime) -> Result<(), Fail> {
        let heap = rt.alloc();
        let memory = [0; 4];
        assert!(rt;
            each_order(
                heap,
                case(&ROTATE, 4, 1, &memory),
                false,
                &[1, 2, 3, 0],
                &[2; 4],
            )?
        );
        assert!(rt; each_order(heap, case(&ROTATE_NO_WAIT, 4, 1, &memory), true, &[], &[])?);
        Ok(())
    }

    // Both threads write their number to one word: whichever is last is drawn, and each is at times.
    #[test]
    fn each_thread_is_drawn_last(rt: HostRuntime) -> Result<(), Fail> {
        let heap = rt.alloc();
        let write = case(&[0, 4, 0, 0, 2], 2, 1, &[9]);
        assert!(rt; some_order(heap, write, &[0])?);
        assert!(rt; some_order(heap, write, &[1])?);
        Ok(())
    }

    #[test]
    fn too_little_lent(rt: HostRuntime) -> Result<(), Fail> {
        let heap = rt.alloc();
        assert!(rt; !few(heap, 12, 2, 2048, 4)?);
        assert!(rt; few(heap, 11, 2, 2048, 4)?);
        assert!(rt; few(heap, 12, 1, 2048, 4)?);
        assert!(rt; few(heap, 12, 2, 2047, 4)?);
        assert!(rt; few(heap, 12, 2, 2048, 3)?);
        Ok(())
    }

    #[test]
    fn runs_of_sums(rt: HostRuntime) -> Result<(), Fail> {
        let heap = rt.alloc();
        let sum = case(&[1, 1, 3, 0, 2, 1, 8, 5, 0, 0, 1, 0], 2, 9, &[5, 7]);
        assert!(rt; agree(heap, sum, Expected::Even(&[17, 7], &[2, 2]))?);
        let no_wait = case(&[1, 1, 3, 0, 2, 5, 0, 0, 1, 0], 2, 9, &[5, 7]);
        assert!(rt; agree(heap, no_wait, uneven(0, 1, 0))?);
        let many = case(&[0, 5, 0, 0, 0, 1], 500, 1, &[4_294_967_000]);
        let ended = vec![in heap; 2u8; 500]?;
        assert!(rt; agree(heap, many, Expected::Even(&[204], ended.as_slice()))?);
        Ok(())
    }

    #[test]
    fn runs_of_writes(rt: HostRuntime) -> Result<(), Fail> {
        let heap = rt.alloc();
        let rows = [0, 4, 0, 0, 2];
        assert!(rt; agree(heap, case(&rows, 2, 1, &[9]), uneven(0, 1, 0))?);
        assert!(rt; agree(heap, case(&rows, 1, 1, &[9]), Expected::Even(&[0], &[2]))?);
        assert!(rt; agree(heap, case(&rows, 2, 1, &[]), uneven(0, 1, 0))?);
        let operations = case(
            &[0, 1, 4, 0, 0, 4, 4, 0, 9, 0, 0, 4, 0, 1, 4, 1, 0, 0, 0, 1],
            1,
            1,
            &[0, 0],
        );
        assert!(rt; agree(heap, operations, Expected::Even(&[9, 4_294_967_295], &[2]))?);
        Ok(())
    }

    #[test]
    fn runs_of_turns_and_waits(rt: HostRuntime) -> Result<(), Fail> {
        let heap = rt.alloc();
        let turns = case(&[0, 7, 0, 1, 0], 3, 5, &[]);
        assert!(rt; agree(heap, turns, Expected::Even(&[], &[3, 3, 3]))?);
        let half = case(&[0, 6, 2, 8, 7, 0, 1, 0], 2, 5, &[]);
        assert!(rt; agree(heap, half, Expected::Even(&[], &[3, 2]))?);
        let broadcast = case(
            &[
                1, 1, 6, 2, 0, 4, 0, 0, 0, 7, 1, 8, 1, 3, 0, 0, 0, 1, 8, 4, 2, 1, 0,
            ],
            3,
            1,
            &[0, 0, 0],
        );
        assert!(rt; agree(heap, broadcast, Expected::Even(&[7, 7, 7], &[2, 2, 2]))?);
        Ok(())
    }

    #[test]
    fn runs_of_rotations(rt: HostRuntime) -> Result<(), Fail> {
        let heap = rt.alloc();
        let memory = [0; 4];
        let rotated = Expected::Even(&[1, 2, 3, 0], &[2; 4]);
        assert!(rt; agree(heap, case(&ROTATE, 4, 1, &memory), rotated)?);
        assert!(rt; agree(heap, case(&ROTATE_NO_WAIT, 4, 1, &memory), uneven(0, 1, 1),)?);
        Ok(())
    }

    // With no threads nothing is run, and all is left as it is.
    #[test]
    fn no_threads(rt: HostRuntime) -> Result<(), Fail> {
        let heap = rt.alloc();
        let nobody = case(&[0, 4, 0, 0, 2], 0, 1, &[9]);
        assert!(rt; each_order(heap, nobody, false, &[9], &[])?);
        assert!(rt; agree(heap, nobody, Expected::Even(&[9], &[]))?);
        Ok(())
    }

    #[test]
    fn no_text(rt: HostRuntime) -> Result<(), Fail> {
        let heap = rt.alloc();
        assert!(rt; runs_no_text(heap, case(&[], 2, 1, &[9]))?);
        assert!(rt; runs_no_text(heap, case(&[0, 77], 2, 1, &[9]))?);
        assert!(rt; runs_no_text(heap, case(&[0, 0, 0], 2, 1, &[9]))?);
        Ok(())
    }

    // The sum with one thread, one word of memory or one word of rows more, each with just enough lent, and then
    // with a work word or a state byte less.
    #[test]
    fn few_below_each_term(rt: HostRuntime) -> Result<(), Fail> {
        let heap = rt.alloc();
        let sum = [1, 1, 3, 0, 2, 1, 8, 5, 0, 0, 1, 0];
        let longer = [1, 1, 3, 0, 2, 1, 8, 5, 0, 0, 4, 0, 1, 0, 0, 0];
        for (case, words) in [
            (case(&sum, 2, 9, &[5, 7]), 6248),
            (case(&sum, 3, 9, &[5, 7]), 7272),
            (case(&sum, 2, 9, &[5, 7, 8]), 6252),
            (case(&longer, 2, 9, &[5, 7]), 6280),
            (case(&[0, 0], 0, 9, &[]), 4112),
        ] {
            let bytes = case.job.threads as usize;
            assert!(rt; runs_even(heap, case, bytes, words)?);
            assert!(rt; runs_few(heap, case, bytes, words - 1)?);
            assert!(rt; bytes == 0 || runs_few(heap, case, bytes.saturating_sub(1), words)?);
        }
        assert!(rt; runs_few(heap, case(&[0, 77], 1, 9, &[]), 0, 100_000)?);
        assert!(rt; runs_few(heap, case(&[0, 0], 4_294_967_295, 9, &[]), 8, 8)?);
        Ok(())
    }
}
