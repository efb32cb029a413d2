// A fill under way.
ghost use Rattle.std.specs.Prelude.{◌≡◌};

use words::Page;

// What is kept of a fill besides its page: the frame that was taken for it.
#[derive(Clone, Copy, PartialEq, Eq, Debug)]
pub struct Underway {
    pub frame: u32,
}

// A page that waits, with its fill.
#[derive(Clone, Copy, PartialEq, Eq, Debug)]
pub struct Waiting {
    pub page: Page,
    pub underway: Underway,
}

// What an unused place of a vector has; of no account.
impl Default for Waiting {
    ghost is_default = { λ w. (w.page.number ≡ 0) × (w.underway.frame ≡ 0) };

    fn default() -> Waiting {
        Waiting {
            page: Page::of_address(0),
            underway: Underway { frame: 0 },
        }
    }
}
