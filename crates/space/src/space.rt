// The calls of an address space.
ghost use Rattle.std.specs.Prelude.{◌≡◌};
ghost use Rattle.law.specs.Law.{Sound, Accounted};
ghost use Rattle.law.specs.PageMap.{nothing};
ghost use Rattle.space.specs.Kept.{kept_map, state};

use crate::fill::Fill;
use fills::{Fills, Underway};
use frames::FrameAllocator;
use law::{AbandonFault, BeginFault, Census, Mark, ReleaseFault, SettleFault, TouchFault, Touched};
use table::{NotMapped, PageTable, ProtectFault, Walked};
use tlb::{Entry, Tlb};
use words::{Access, Page, Translation};

// The TLB has no pair that the table has not; the frame of each mapped page and of each fill is out, at one place; and a page that waits
// is not mapped.
#[derive(Drop)]
pub struct Space<T: Tlb, F: FrameAllocator> {
    table: PageTable,
    fills: Fills,
    tlb: T,
    frames: F,
    ghost sound: { Sound T.Tlb.meaning F.FrameAllocator.meaning (kept_map table fills) (state tlb frames) },
}

impl<T: Tlb, F: FrameAllocator> Space<T, F> {
    ghost use Rattle.law.specs.declared.calls.Event.TheVariants as event;
    ghost use Rattle.space.specs.Space.{page_map, tlb_of, frames_of, Lawful, Resolves, begun, BeginLeaves, SettleLeaves, AbandonLeaves, ReleaseLeaves, ProtectLeaves, TouchLeaves};

    // Nothing is mapped and no fill is under way. The TLB is flushed.
    pub fn new(tlb: T, frames: F) -> Space<T, F>
        ensures map { page_map result ≡ nothing }
        ensures flushed { T.Tlb.meaning.flushed tlb (tlb_of result) }
        ensures frames { frames_of result ≡ frames }
        ensures accounted { Accounted F.FrameAllocator.meaning frames (page_map result) (frames_of result) }
    {
        let mut tlb = tlb;
        tlb.flush();
        Space {
            table: PageTable::new(),
            fills: Fills::new(),
            tlb,
            frames,
        }
    }

    // Takes a frame for a page that is not mapped and does not wait.
    pub fn begin(&mut self, address: u64) -> Result<Fill, BeginFault>
        ensures law { Lawful self.old (begun address result) self.new }
        ensures leaves { BeginLeaves self.old address result self.new }
    {
        let page = Page::of_address(address);
        if self.table.lookup(page).is_some() {
            return Err(BeginFault::Mapped);
        }
        // before a frame is taken, so that no refusal has one to give back
        self.fills.admits(page)?;
        let frame = self.frames.allocate(page)?;
        let underway = Underway { frame };
        self.fills.add(page, underway)?;
        Ok(Fill { page, underway })
    }

    // Maps the page of a fill to its frame; the frame.
    pub(crate) fn settle(
        &mut self,
        page: Page,
        underway: Underway,
        attributes: u16,
    ) -> Result<u32, SettleFault>
        ensures law { Lawful self.old (event.Settle page underway attributes result) self.new }
        ensures leaves { SettleLeaves self.old result self.new }
    {
        if attributes > 4095 {
            return Err(SettleFault::BadAttributes);
        }
        if self.fills.find(page) != Some(underway) {
            return Err(SettleFault::NoFill);
        }
        let translation = Translation {
            frame: underway.frame,
            attributes,
        };
        self.table.map(page, translation)?;
        self.fills.remove(page, underway)?;
        Ok(underway.frame)
    }

    // Gives the frame of a fill back; the frame.
    pub(crate) fn abandon(&mut self, page: Page, underway: Underway) -> Result<u32, AbandonFault>
        ensures law { Lawful self.old (event.Abandon page underway result) self.new }
        ensures leaves { AbandonLeaves self.old result self.new }
    {
        let frame = underway.frame;
        self.fills.remove(page, underway)?;
        self.frames.free(frame)?;
        Ok(frame)
    }

    // Unmaps a page and gives its frame back; what it was mapped to.
    pub fn release(&mut self, address: u64) -> Result<Translation, ReleaseFault>
        ensures law { Lawful self.old (event.Release address result) self.new }
        ensures leaves { ReleaseLeaves self.old result self.new }
    {
        let page = Page::of_address(address);
        let translation = self.table.unmap(page)?;
        // before the frame can be given to another page
        self.tlb.purge(page);
        self.frames.free(translation.frame)?;
        Ok(translation)
    }

    // Gives a page other attributes; those that it had.
    pub fn protect(&mut self, address: u64, attributes: u16) -> Result<u16, ProtectFault>
        ensures law { Lawful self.old (event.Protect address attributes result) self.new }
        ensures leaves { ProtectLeaves self.old result self.new }
    {
        let page = Page::of_address(address);
        let former = self.table.protect(page, attributes)?;
        self.tlb.purge(page);
        Ok(former)
    }

    // The physical address of an access of a number: 1 to read, 2 to write, 4 to execute.
    pub fn touch(&mut self, address: u64, access: u8) -> Result<Touched, TouchFault>
        ensures law { Lawful self.old (event.Touch address access result) self.new }
        ensures leaves { TouchLeaves self.old result self.new }
    {
        let access = Access::try_from(access)?;
        let (translation, mark) = self.resolve(Page::of_address(address))?;
        if !translation.allows(access) {
            return Err(TouchFault::Denied);
        }
        Ok(Touched {
            physical: translation.physical(address),
            mark,
        })
    }

    // What the TLB answers for a page, or else what the table has, which the TLB then takes in.
    fn resolve(&mut self, page: Page) -> Result<(Translation, Mark), NotMapped>
        ensures { Resolves self.old page.number result self.new }
    {
        if let Some(translation) = self.tlb.probe(page) {
            return Ok((translation, Mark::Hit));
        }
        let word = self.table.walk(page)?.word;
        let translation = word.read(page.offset()).ok_or(NotMapped)?;
        self.tlb.load(Entry { page, word }, page);
        Ok((translation, Mark::Missed))
    }

    // The word of a page, as the miss handler loads it, and how many nodes were looked at to find it.
    pub fn walk(&self, address: u64) -> Result<Walked, NotMapped>
        ensures { Lawful self.now (event.Walk address result) self.now }
    {
        self.table.walk(Page::of_address(address))
    }

    pub fn census(&self) -> Census
        ensures { Lawful self.now (event.Census result) self.now }
    {
        let table = self.table.census();
        Census {
            nodes: table.nodes,
            rows: table.rows,
            pages: table.pages,
            fills: self.fills.count(),
        }
    }
}
