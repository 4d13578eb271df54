// The budget that a program's buffers keep to.
ghost use Rattle.std.specs.Prelude.{◌≡◌, ℕ, ◌+◌, ◌-◌, ◌*◌, ◌^◌, ◌<◌, ◌≤◌, nat_le};
ghost use Rattle.words.specs.Budget.{bare, needed, bytes_beside, capacity, besides, besides_rows};

/// How many bytes the buffers of a program take at most, in all.
pub const BUDGET: usize = 4_194_304;

/// How many bytes of a file are read at a time.
pub const CHUNK: usize = 4096;

/// What a program does with its words: it reads them, or it also runs the rows by so many threads, once, or in
/// so many orders that are drawn.
#[derive(Clone, Copy)]
pub enum Task {
    Read,
    Run(u32),
    Orders(u32, u32),
}

/// What the words of a file are for.
#[derive(Clone, Copy)]
pub enum Role {
    Memory,
    /// Rows, beside a memory of so many words.
    Rows(usize),
}

impl Task {
    /// How many bytes a task takes with no words at all.
    fn bare_bytes(self) -> usize
        ensures { result ≡ bare self }
    {
        match self {
            Task::Read => 4096,
            Task::Run(threads) => 20480 + 4097 * threads as usize,
            Task::Orders(threads, orders) => 4104 + 4098 * threads as usize + orders as usize,
        }
    }

    /// Whether a task keeps to the budget with no words at all.
    pub fn fits(self) -> bool
        ensures { result ≡ nat_le (bare self) 4194304 }
    {
        self.bare_bytes() <= BUDGET
    }

    /// How many bytes the buffers take with so many words of a file.
    pub fn bytes_needed(self, role: Role, words: usize) -> u128
        ensures { result ≡ needed self role words }
    {
        let bare = self.bare_bytes() as u128;
        let words = words as u128;
        match (self, role) {
            (Task::Read, Role::Memory) => bare + 4 * words,
            (Task::Read, Role::Rows(memory)) => bare + 4 * memory as u128 + 8 * words,
            (_, Role::Memory) => bare + 20 * words,
            (Task::Run(_), Role::Rows(memory)) => bare + 20 * memory as u128 + 40 * words,
            (Task::Orders(_, _), Role::Rows(memory)) => bare + 20 * memory as u128 + 8 * words,
        }
    }

    /// How many words of a file the budget has room for.
    // The divisors are those of `bytes_needed`, each a number: of one that is computed it would have to be shown that it is not 0.
    pub fn room(self, role: Role) -> usize
        ensures within { 0 < result → needed self role result ≤ 4194304 }
        ensures all { (n : ℕ) → 0 < n → n ≤ result → needed self role n ≤ 4194304 }
        ensures most { 4194304 < needed self role (result + 1) }
    {
        let left = self.left();
        match (self, role) {
            (Task::Read, Role::Memory) => left / 4,
            (Task::Read, Role::Rows(memory)) => left.saturating_sub(memory.saturating_mul(4)) / 8,
            (_, Role::Memory) => left / 20,
            (Task::Run(_), Role::Rows(memory)) => {
                left.saturating_sub(memory.saturating_mul(20)) / 40
            }
            (Task::Orders(_, _), Role::Rows(memory)) => {
                left.saturating_sub(memory.saturating_mul(20)) / 8
            }
        }
    }

    /// What a task leaves of the budget for words.
    fn left(self) -> usize
        ensures { result ≡ 4194304 - bare self }
    {
        BUDGET.saturating_sub(self.bare_bytes())
    }

    /// How many bytes a task takes beside its one buffer of words and what is read by: the states of its threads, and whether
    /// orders clashed.
    fn bytes_besides(self) -> usize
        ensures { result ≡ bytes_beside self }
    {
        match self {
            Task::Read => 0,
            Task::Run(threads) => threads as usize,
            Task::Orders(threads, orders) => 2 * threads as usize + orders as usize,
        }
    }

    /// How many words of 4 bytes the budget has room for, in one buffer for all.
    pub fn words_in_all(self) -> usize
        ensures { result ≡ capacity self }
    {
        (BUDGET - CHUNK).saturating_sub(self.bytes_besides()) / 4
    }

    /// How many words a program sets aside behind those that it read, but for those that it sets aside for its rows. To run once it
    /// lends 4,096 words, 4 for each word of the memory, and 1,024 for each thread. To run in orders it has two copies of the
    /// memory, two words for each place of it, of which there is one at least, and 1,024 for each thread.
    pub fn words_besides(self, memory: usize) -> usize
        ensures { memory < 2 ^ 32 → result ≡ besides self memory }
    {
        match self {
            Task::Read => 0,
            Task::Run(threads) => {
                let lent = 4096 + 1024 * threads as usize;
                lent.saturating_add(memory.saturating_mul(4))
            }
            Task::Orders(threads, _) => {
                let places = memory.max(1);
                memory
                    .saturating_add(places)
                    .saturating_mul(2)
                    .saturating_add(1024 * threads as usize)
            }
        }
    }

    /// How many words more a program sets aside for so many words of its rows: to run once it lends 8 for each of them.
    fn words_for_rows(self, rows: usize) -> usize
        ensures value { rows < 2 ^ 32 → result ≡ besides_rows self rows }
        ensures bound { result ≤ besides_rows self rows }
    {
        match self {
            Task::Run(_) => rows.saturating_mul(8),
            Task::Read | Task::Orders(_, _) => 0,
        }
    }

    /// How many words a program sets aside in all, behind those that it read and the table of ends.
    pub fn words_set_aside(self, memory: usize, rows: usize) -> usize
        ensures value { memory < 2 ^ 32 → rows < 2 ^ 32 → result ≡ besides self memory + besides_rows self rows }
        ensures within { needed self (Role.Rows memory) rows ≤ 4194304 → memory + 2 * rows + result ≤ capacity self }
    {
        self.words_besides(memory)
            .saturating_add(self.words_for_rows(rows))
    }
}
