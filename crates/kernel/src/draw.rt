// Numbers drawn one after the other from a seed: a linear congruential generator with 64 bits of state, of
// which the upper 32 are the number. The constants are those of Knuth's MMIX.
ghost use Rattle.std.specs.Prelude.{◌≡◌, ◌/◌, ◌%◌, ◌^◌, ◌<◌, ◌≤◌};
ghost use Rattle.kernel.specs.Numbers.{next_state};

#[derive(Clone, Copy)]
pub struct Draw {
    state: u64,
}

impl Draw {
    pub fn new(seed: u32) -> Draw
        ensures { result.state ≡ seed }
    {
        Draw { state: seed as u64 }
    }

    pub fn next(&mut self) -> u32
        ensures state { self.new.state ≡ next_state self.old.state }
        ensures value { result ≡ next_state self.old.state / 2 ^ 32 }
    {
        self.state = self
            .state
            .wrapping_mul(6364136223846793005)
            .wrapping_add(1442695040888963407);
        (self.state / 4294967296) as u32
    }

    // A number below n; where there is none, 0.
    pub fn below(&mut self, n: u32) -> u32
        ensures state { self.new.state ≡ next_state self.old.state }
        ensures value { 0 < n → result ≡ next_state self.old.state / 2 ^ 32 % n }
        ensures within { result ≤ n }
    {
        let number = self.next();
        if n == 0 { 0 } else { number % n }
    }
}
