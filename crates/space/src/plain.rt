// An address space whose fills are named by page and frame, as a list of calls or a caller in C has them.
ghost use Rattle.std.specs.Prelude.{◌≡◌, min, length, take};
ghost use Rattle.law.specs.Calls.{call_of};
ghost use Rattle.law.specs.Law.{Accounted};
ghost use Rattle.law.specs.PageMap.{nothing, after};
ghost use Rattle.law.specs.Runs.{Obeys, Answered};
ghost use Rattle.law.specs.declared.calls.Event.TheVariants as event;

use crate::fill::Fill;
use crate::space::Space;
use fills::Underway;
use frames::FrameAllocator;
use law::{
    AbandonFault, BeginFault, Call, Census, Event, ReleaseFault, SettleFault, TouchFault, Touched,
};
use table::{NotMapped, ProtectFault, Walked};
use tlb::Tlb;
use words::{Page, Translation};

// Nothing sees to it that each fill ends, and a settle or an abandon may name one that is not under way. No `Space` is made from it, so
// no fill of a `Space` is without its token.
#[derive(Drop)]
pub struct PlainSpace<T: Tlb, F: FrameAllocator> {
    space: Space<T, F>,
}

impl<T: Tlb, F: FrameAllocator> PlainSpace<T, F> {
    ghost use Rattle.space.specs.Space.{tlb_of, frames_of, seen, page_map, Lawful, SettleLeaves, AbandonLeaves, ReleaseLeaves, ProtectLeaves, TouchLeaves};
    ghost use Rattle.space.specs.Plain.{plain, PlainBeginLeaves};

    // As of a `Space`, each of these.
    pub fn new(tlb: T, frames: F) -> PlainSpace<T, F>
        ensures map { page_map (plain result) ≡ nothing }
        ensures flushed { T.Tlb.meaning.flushed tlb (tlb_of (plain result)) }
        ensures frames { frames_of (plain result) ≡ frames }
        ensures accounted { Accounted F.FrameAllocator.meaning frames (page_map (plain result)) (frames_of (plain result)) }
    {
        PlainSpace {
            space: Space::new(tlb, frames),
        }
    }

    // The frame that was taken for the page.
    pub fn begin(&mut self, address: u64) -> Result<u32, BeginFault>
        ensures law { Lawful (plain self.old) (event.Begin address result) (plain self.new) }
        ensures leaves { PlainBeginLeaves (plain self.old) result (plain self.new) }
    {
        let Fill { page: _, underway } = self.space.begin(address)?;
        Ok(underway.frame)
    }

    pub fn settle(
        &mut self,
        page: Page,
        underway: Underway,
        attributes: u16,
    ) -> Result<u32, SettleFault>
        ensures law { Lawful (plain self.old) (event.Settle page underway attributes result) (plain self.new) }
        ensures leaves { SettleLeaves (plain self.old) result (plain self.new) }
    {
        self.space.settle(page, underway, attributes)
    }

    pub fn abandon(&mut self, page: Page, underway: Underway) -> Result<u32, AbandonFault>
        ensures law { Lawful (plain self.old) (event.Abandon page underway result) (plain self.new) }
        ensures leaves { AbandonLeaves (plain self.old) result (plain self.new) }
    {
        self.space.abandon(page, underway)
    }

    pub fn release(&mut self, address: u64) -> Result<Translation, ReleaseFault>
        ensures law { Lawful (plain self.old) (event.Release address result) (plain self.new) }
        ensures leaves { ReleaseLeaves (plain self.old) result (plain self.new) }
    {
        self.space.release(address)
    }

    pub fn protect(&mut self, address: u64, attributes: u16) -> Result<u16, ProtectFault>
        ensures law { Lawful (plain self.old) (event.Protect address attributes result) (plain self.new) }
        ensures leaves { ProtectLeaves (plain self.old) result (plain self.new) }
    {
        self.space.protect(address, attributes)
    }

    pub fn touch(&mut self, address: u64, access: u8) -> Result<Touched, TouchFault>
        ensures law { Lawful (plain self.old) (event.Touch address access result) (plain self.new) }
        ensures leaves { TouchLeaves (plain self.old) result (plain self.new) }
    {
        self.space.touch(address, access)
    }

    pub fn walk(&self, address: u64) -> Result<Walked, NotMapped>
        ensures { Lawful (plain self.now) (event.Walk address result) (plain self.now) }
    {
        self.space.walk(address)
    }

    pub fn census(&self) -> Census
        ensures { Lawful (plain self.now) (event.Census result) (plain self.now) }
    {
        self.space.census()
    }

    // Makes a call that is given as a plain value; the call with its answer.
    pub fn perform(&mut self, call: Call) -> Event
        ensures law { Lawful (plain self.old) result (plain self.new) }
        ensures own { call_of result ≡ call }
    {
        match call {
            Call::Begin(address) => Event::Begin(address, self.begin(address)),
            Call::Settle(page, underway, attributes) => Event::Settle(
                page,
                underway,
                attributes,
                self.settle(page, underway, attributes),
            ),
            Call::Abandon(page, underway) => {
                Event::Abandon(page, underway, self.abandon(page, underway))
            }
            Call::Release(address) => Event::Release(address, self.release(address)),
            Call::Protect(address, attributes) => Event::Protect(
                address,
                attributes,
                self.protect(address, attributes),
            ),
            Call::Touch(address, access) => Event::Touch(
                address,
                access,
                self.touch(address, access),
            ),
            Call::Walk(address) => Event::Walk(address, self.walk(address)),
            Call::Census => Event::Census(self.census()),
        }
    }
}

ghost use Rattle.space.specs.Space.{seen, page_map};
ghost use Rattle.space.specs.Plain.{plain};

// Makes the calls on a new space of the TLB and the allocator, as many as there are places for events, and writes the event of each to its
// place.
pub fn replay<T: Tlb, F: FrameAllocator>(
    tlb: T,
    frames: F,
    calls: &[Call],
    events: &mut [Event],
) -> PlainSpace<T, F>
    ensures answered { Answered calls.now events.old events.new (min (length calls.now) (length events.old)) }
    ensures law { Obeys T.Tlb.meaning F.FrameAllocator.meaning tlb frames (take (min (length calls.now) (length events.old)) events.new) (seen (plain result)) }
    ensures map { page_map (plain result) ≡ after nothing (take (min (length calls.now) (length events.old)) events.new) }
{
    let mut space = PlainSpace::new(tlb, frames);
    for i in 0..calls.len().min(events.len()) {
        events[i] = space.perform(calls[i]);
    }
    space
}
