// The 4,096 frames that an allocator has.
ghost use Rattle.std.specs.Prelude.{◌≡◌, ◌%◌, ◌<◌, ◌≤◌};

// The frames from the first one on.
#[derive(Clone, Copy, PartialEq, Eq, Debug)]
pub struct Stock {
    pub(crate) first: u32,
    ghost low: { first ≤ 1048560 },
    ghost whole: { first % 16 ≡ 0 },
}

// Which of the frames of a stock, counted from the first one.
#[derive(Clone, Copy, PartialEq, Eq, Debug)]
pub struct Place {
    pub number: u16,
    ghost within: { number < 4096 },
}
