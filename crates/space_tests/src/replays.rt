// Examples of replayed calls.
use crate::one_pair::OnePairTlb;
use crate::steps::{ADDRESS, free_list, one_page_first, reservation};
use frames::{FrameAllocator, FreeListAllocator};
use space::{
    AbandonFault, BeginFault, Call, Census, Event, Mark, SettleFault, TouchFault, Touched,
    Underway, replay,
};
use std::process::Abort;
use table::NotMapped;
use tlb::{OnePageTlb, PartialSubblockTlb, Tlb};
use words::{Page, Translation};

// A census of a space where no page is mapped.
fn census(fills: usize) -> Census {
    Census {
        nodes: 0,
        rows: 0,
        pages: 0,
        fills,
    }
}

// What stands at a place before it is written.
fn blank() -> Event {
    Event::Census(census(9))
}

// The calls of the events are made again, and answer the same.
fn answers<T: Tlb + Drop, F: FrameAllocator + Drop>(
    rt: &impl Abort,
    tlb: T,
    frames: F,
    expected: [Event; 20],
) {
    let calls = expected.map(|event| event.call());
    let mut events = [blank(); 20];
    let space = replay(tlb, frames, &calls, &mut events);
    for (event, wanted) in events.iter().zip(&expected) {
        assert_eq!(rt; event, wanted);
    }
    assert_eq!(rt; space.census(), census(0));
}

// One page lives on a frame. Some settles and abandons name a fill that is not under way: of another page, of another frame, or a spent one.
fn life(frame: u32) -> [Event; 20] {
    let page = Page::of_address(ADDRESS);
    let neighbour = Page::of_address(0x42000);
    let frame = frame % 0x1000_0000;
    let own = Underway { frame };
    let other = Underway { frame: frame + 1 };
    let touched = |mark| Touched {
        physical: u64::from(frame) * 4096 + 0x34,
        mark,
    };
    [
        Event::Walk(ADDRESS, Err(NotMapped)),
        Event::Begin(ADDRESS, Ok(frame)),
        Event::Begin(0x41FFF, Err(BeginFault::Waiting)),
        Event::Settle(neighbour, own, 3, Err(SettleFault::NoFill)),
        Event::Settle(page, other, 3, Err(SettleFault::NoFill)),
        Event::Abandon(page, other, Err(AbandonFault::NoFill)),
        Event::Settle(page, own, 4096, Err(SettleFault::BadAttributes)),
        Event::Settle(page, own, 3, Ok(frame)),
        Event::Settle(page, own, 3, Err(SettleFault::NoFill)),
        Event::Settle(page, own, 4096, Err(SettleFault::BadAttributes)),
        Event::Abandon(page, own, Err(AbandonFault::NoFill)),
        Event::Begin(ADDRESS, Err(BeginFault::Mapped)),
        Event::Touch(ADDRESS, 1, Ok(touched(Mark::Missed))),
        Event::Touch(ADDRESS, 4, Err(TouchFault::Denied)),
        Event::Touch(ADDRESS, 2, Ok(touched(Mark::Hit))),
        Event::Protect(ADDRESS, 1, Ok(3)),
        Event::Release(
            ADDRESS,
            Ok(Translation {
                frame,
                attributes: 1,
            }),
        ),
        Event::Begin(ADDRESS, Ok(frame)),
        Event::Abandon(page, own, Ok(frame)),
        Event::Census(census(0)),
    ]
}

#[test]
fn only_a_fill_that_is_under_way_is_settled(rt: HostRuntime) {
    answers(&rt, one_page_first(), free_list(), life(0x1000));
    answers(&rt, OnePairTlb::new(), FreeListAllocator::new(0), life(0));
    answers(&rt, PartialSubblockTlb::new(), reservation(), life(0x1001));
}

#[test]
fn as_many_calls_are_made_as_there_are_places(rt: HostRuntime) {
    let calls = [Call::Begin(ADDRESS), Call::Census, Call::Begin(0x50000)];
    let mut events = [blank(); 2];
    let space = replay(OnePairTlb::new(), free_list(), &calls, &mut events);
    assert_eq!(rt; events[0], Event::Begin(ADDRESS, Ok(0x1000)));
    assert_eq!(rt; events[1], Event::Census(census(1)));
    assert_eq!(rt; space.census(), census(1), "the third is not made");
}

#[test]
fn a_place_without_a_call_is_left(rt: HostRuntime) {
    let calls = [Call::Touch(ADDRESS, 1)];
    let mut events = [blank(); 3];
    let _ = replay(OnePageTlb::new(), reservation(), &calls, &mut events);
    assert_eq!(rt;
        events[0],
        Event::Touch(ADDRESS, 1, Err(TouchFault::NotMapped))
    );
    assert_eq!(rt; (events[1], events[2]), (blank(), blank()));
}
