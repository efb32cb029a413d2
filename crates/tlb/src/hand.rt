// The hand that says which slot is filled next.
ghost use Rattle.std.specs.Prelude.{◌≡◌, ◌<◌};
ghost use Rattle.tlb.specs.Slots.{next_slot};

#[derive(Clone, Copy)]
pub struct Hand {
    pub at: usize,
    ghost within: { at < 64 },
}

impl Hand {
    pub fn start() -> Hand
        ensures { result.at ≡ 0 }
    {
        Hand { at: 0 }
    }

    // Goes on by one slot, from 63 to 0.
    pub fn advance(&mut self)
        ensures { self.new.at ≡ next_slot self.old.at }
    {
        self.at = if self.at == 63 { 0 } else { self.at + 1 };
    }
}
