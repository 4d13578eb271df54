// What is run, and what is lent for it.
ghost use Rattle.std.specs.Prelude.{◌≡◌, length, true, false, MatchResult};
ghost use Rattle.kernel.specs.Jobs.{sizes_of, Enough, Readied, Refuses};
ghost use Rattle.kernel.specs.declared.job.Refused.TheVariants.{NoText};

use machine::thread::WORDS;
use rows::{Refusal, Text, decode};

// The rows, by so many threads with so many turns each.
#[derive(Clone, Copy, Debug, PartialEq, Eq)]
pub struct Job<'a> {
    pub rows: &'a [u32],
    pub threads: u32,
    pub turns: u32,
}

// The words for the table of ends, as many as there are rows; 1,024 for each thread; and two for each place. Slices beside one
// another, since each is lent.
#[derive(Drop)]
pub struct Lent<'a> {
    pub ends: &'a mut [u32],
    pub work: &'a mut [u32],
    pub marks: &'a mut [u32],
}

// How much is lent, in words and bytes.
#[derive(Clone, Copy, Debug, PartialEq, Eq)]
pub struct Sizes {
    pub ends: usize,
    pub states: usize,
    pub work: usize,
    pub marks: usize,
}

// Why no order is run: too little is lent for it, or the rows are no text.
#[derive(Clone, Copy, Debug, PartialEq, Eq)]
pub enum Refused {
    Few,
    NoText(Refusal),
}

// By hand, since a derived `From` has no contract, and what `?` makes of a refusal is promised.
impl From<Refusal> for Refused {
    ghost from_gives = { λ refusal refused. refused ≡ NoText refusal };

    fn from(refusal: Refusal) -> Refused {
        Refused::NoText(refusal)
    }
}

impl Lent<'_> {
    // How much is lent, with so many bytes for the states.
    pub(crate) fn sizes(&self, states: usize) -> Sizes
        ensures { result ≡ sizes_of self.now states }
    {
        Sizes {
            ends: self.ends.len(),
            states,
            work: self.work.len(),
            marks: self.marks.len(),
        }
    }
}

impl Sizes {
    // Whether that is enough for a job on a memory of so many words.
    fn suffice(self, job: Job, memory: usize) -> bool
        ensures enough { result ≡ true → Enough (length job.entry.rows.now) memory job.entry.threads self }
        ensures few { result ≡ false → Enough (length job.entry.rows.now) memory job.entry.threads self → ⊥ }
    {
        let threads = job.threads as usize;
        job.rows.len() <= self.ends
            && threads <= self.states
            && threads <= self.work / WORDS
            && memory.max(1) <= self.marks / 2
    }
}

impl Job<'_> {
    // The text of the rows, with its table of ends, for an order on a memory of so many words, where so much is lent.
    pub(crate) fn text(self, memory: usize, sizes: Sizes, ends: &mut [u32]) -> Result<Text, Refused>
        requires { length ends.old ≡ sizes.ends }
        ensures { MatchResult result (Readied self.entry.rows.now memory self.entry.threads sizes ends.new) (Refuses self.entry.rows.now memory self.entry.threads sizes) }
    {
        if !sizes.suffice(self, memory) {
            return Err(Refused::Few);
        }
        Ok(decode(self.rows, ends)?)
    }
}
