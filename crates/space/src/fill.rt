// A fill under way, as its holder has it.
ghost use Rattle.std.specs.Prelude.{◌≡◌};

use crate::space::Space;
use fills::Underway;
use frames::FrameAllocator;
use law::{AbandonFault, SettleFault};
use tlb::Tlb;
use words::Page;

// A page that waits for its translation, with the frame that was taken for it. It has no `Drop`: it is settled or abandoned, and never let go.
pub struct Fill {
    pub(crate) page: Page,
    pub(crate) underway: Underway,
}

// A fill that was not settled comes back with the reason.
pub struct Unsettled {
    pub fill: Fill,
    pub fault: SettleFault,
}

impl Fill {
    ghost use Rattle.space.specs.Fill.{fill_page, fill_underway};
    ghost use Rattle.space.specs.Space.{Lawful, settled, abandoned, FillBack, SettleLeaves, AbandonLeaves};

    // The page that waits.
    pub fn page(&self) -> Page
        ensures { result ≡ fill_page self.now }
    {
        self.page
    }

    // The frame that was taken for it.
    pub fn frame(&self) -> u32
        ensures { result ≡ (fill_underway self.now).frame }
    {
        self.underway.frame
    }

    // Maps the page to its frame, with these attributes; the frame.
    pub fn settle<T: Tlb, F: FrameAllocator>(
        self,
        space: &mut Space<T, F>,
        attributes: u16,
    ) -> Result<u32, Unsettled>
        ensures law { Lawful space.old (settled self attributes result) space.new }
        ensures back { FillBack self result }
        ensures leaves { SettleLeaves space.old result space.new }
    {
        let Fill { page, underway } = self;
        match space.settle(page, underway, attributes) {
            Ok(frame) => Ok(frame),
            Err(fault) => Err(Unsettled {
                fill: Fill { page, underway },
                fault,
            }),
        }
    }

    // Gives the frame back; the frame. The fill is spent in either case.
    pub fn abandon<T: Tlb, F: FrameAllocator>(
        self,
        space: &mut Space<T, F>,
    ) -> Result<u32, AbandonFault>
        ensures law { Lawful space.old (abandoned self result) space.new }
        ensures leaves { AbandonLeaves space.old result space.new }
    {
        let Fill { page, underway } = self;
        space.abandon(page, underway)
    }
}
