// Pseudo-random numbers, the same in every run; those of a library would draw other calls.
ghost use Rattle.std.specs.Prelude.{◌≡◌, ◌<◌};

#[derive(Drop)]
pub struct Random {
    state: u64,
}

impl Random {
    pub fn start() -> Random
        ensures { result.state ≡ 0x2545_f491_4f6c_dd1d }
    {
        Random {
            state: 0x2545_f491_4f6c_dd1d,
        }
    }

    // A xorshift.
    fn next_number(&mut self) -> u64 {
        self.state ^= self.state << 13;
        self.state ^= self.state >> 7;
        self.state ^= self.state << 17;
        self.state
    }

    pub fn below(&mut self, limit: u64) -> u64
        requires { 0 < limit }
        ensures { result < limit }
    {
        self.next_number() % limit
    }
}
