// The buffers for one text at a time, and what is run in them.
use kernel::draw::Draw;
use kernel::drawn::draw_order;
use kernel::led::{NotCalm, lead};
use kernel::{Job, Lent, Ran, Refused};
use model::Status;
use std::alloc::{AllocError, Global};
use texts::MOST;
use texts::case::{Case, MOST_THREADS, MOST_WORDS};
use words::budget::Task;

/// How many states there are at most.
const MOST_STATES: usize = MOST_THREADS as usize;

/// A memory, and a state for each thread. What a text has no use for stays 0.
// Plain arrays, since the case has both lengths already, and the zeros behind them are alike in all that is compared.
#[derive(PartialEq, Drop)]
pub struct Left {
    memory: [u32; MOST_WORDS],
    states: [u8; MOST_STATES],
}

impl Left {
    /// The memory as it is given.
    pub fn before(case: &Case) -> Left {
        let given = case.memory();
        let mut memory = [0; MOST_WORDS];
        memory[0..given.len()].copy_from_slice(given);
        Left {
            memory,
            states: [0; MOST_STATES],
        }
    }

    pub fn same_memory(&self, other: &Left) -> bool {
        self.memory == other.memory
    }

    pub fn out_of_turns(&self) -> bool {
        self.states.contains(&(Status::OutOfTurns as u8))
    }
}

fn job_of(case: &Case) -> Job<'_> {
    Job {
        rows: case.rows(),
        threads: case.threads(),
        turns: case.turns(),
    }
}

/// The table of ends, two words for each place, and what threads work in: as much as the largest text asks for.
#[derive(Drop)]
pub struct Desk {
    ends: Vec<u32>,
    marks: Vec<u32>,
    work: Vec<u32>,
}

impl Desk {
    pub fn new(heap: Global) -> Result<Desk, AllocError> {
        let asked = Task::Run(MOST_THREADS).words_set_aside(MOST_WORDS, MOST);
        Ok(Desk {
            ends: vec![in heap; 0; MOST]?,
            marks: vec![in heap; 0; 2 * MOST_WORDS]?,
            work: vec![in heap; 0; asked]?,
        })
    }

    /// What `run` says of a text, and leaves.
    pub fn run(&mut self, case: &Case, left: &mut Left) -> Ran {
        let words = case.memory().len();
        let threads = case.threads();
        kernel::run(
            case.rows(),
            threads,
            case.turns(),
            &mut left.memory[0..words],
            &mut left.states[0..threads as usize],
            self.work.as_mut_slice(),
        )
    }

    fn lent(&mut self) -> Lent<'_> {
        Lent {
            ends: self.ends.as_mut_slice(),
            work: self.work.as_mut_slice(),
            marks: self.marks.as_mut_slice(),
        }
    }

    /// Whether two threads clash in a drawn order, and what it leaves.
    pub fn draw(&mut self, case: &Case, left: &mut Left, draw: &mut Draw) -> Result<bool, Refused> {
        let words = case.memory().len();
        let threads = case.threads() as usize;
        draw_order(
            job_of(case),
            &mut left.memory[0..words],
            &mut left.states[0..threads],
            self.lent(),
            draw,
        )
    }

    /// In how many stretches the order ends that is led step by step.
    pub fn lead(&mut self, case: &Case, left: &mut Left) -> Result<u32, NotCalm> {
        let words = case.memory().len();
        lead(job_of(case), &mut left.memory[0..words], self.lent())
    }

    /// Whether the last order touched the memory: then a place has a mark.
    pub fn touched(&self) -> bool {
        self.marks.iter().any(|mark| *mark != 0)
    }
}
