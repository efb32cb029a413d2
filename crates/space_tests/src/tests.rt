// Examples of the eight calls on pages that come and go.
use crate::counted_loads::CountedLoads;
use crate::counted_refusals::CountedRefusals;
use crate::one_pair::OnePairTlb;
use crate::steps::{
    ADDRESS, abandon, begin, census, free_list, map, one_page_first, partial_first, protect,
    release, reservation, settle, touch, walk,
};
use frames::FrameAllocator;
use reservation::ReservationAllocator;
use space::{Mark, Space};
use std::process::Abort;
use std::test::Fail;
use tlb::{Entry, OnePageTlb, PartialSubblockTlb, Tlb, TwoLevelTlb};
use words::{FullWord, Page, Translation, Word};

// What the first page of a new space has, and the word of the page with attributes 3.
#[derive(Clone, Copy)]
struct First {
    frame: u32,
    rows: u16,
    form: u64,
    bits: u64,
}

// The free list gives its lowest frame, which is misplaced.
const LOWEST: First = First {
    frame: 0x1000,
    rows: 1,
    form: 2,
    bits: 0x8000_0000_0100_0003,
};

// The reservation gives the frame at the page's offset.
const PLACED: First = First {
    frame: 0x1001,
    rows: 0,
    form: 1,
    bits: 0x0002_0000_0100_0003,
};

fn is_filled<T: Tlb, F: FrameAllocator>(rt: &impl Abort, space: &mut Space<T, F>, first: First) {
    assert_eq!(rt; census(space), (0, 0, 0, 0));
    let fill = begin(rt, space, ADDRESS);
    assert_eq!(rt; (fill.page().number, fill.frame()), (0x41, first.frame));
    assert_eq!(rt; census(space), (0, 0, 0, 1));
    assert_eq!(rt; settle(fill, space, 3), Ok(first.frame));
    assert_eq!(rt; census(space), (1, first.rows, 1, 0));
    assert_eq!(rt; walk(space, ADDRESS), Ok((first.form, first.bits, 1)));
}

fn is_used<T: Tlb, F: FrameAllocator>(rt: &impl Abort, space: &mut Space<T, F>, first: First) {
    let start = u64::from(first.frame) * 4096;
    assert_eq!(rt; touch(space, ADDRESS, 1), Ok((start + 0x34, Mark::Missed)));
    assert_eq!(rt; touch(space, 0x41FFF, 2), Ok((start + 0xFFF, Mark::Hit)));
    assert_eq!(rt; touch(space, ADDRESS, 4), Err(11));
    assert_eq!(rt; protect(space, 0x41000, 5), Ok(3));
    assert_eq!(rt;
        touch(space, ADDRESS, 4),
        Ok((start + 0x34, Mark::Missed)),
        "purged"
    );
    assert_eq!(rt; touch(space, ADDRESS, 1), Ok((start + 0x34, Mark::Hit)));
    assert_eq!(rt; touch(space, ADDRESS, 2), Err(11));
}

fn is_freed<T: Tlb, F: FrameAllocator>(rt: &impl Abort, space: &mut Space<T, F>, first: First) {
    assert_eq!(rt; release(space, ADDRESS), Ok((first.frame, 5)));
    assert_eq!(rt; touch(space, ADDRESS, 1), Err(9), "purged");
    assert_eq!(rt; walk(space, ADDRESS), Err(9));
    assert_eq!(rt; census(space), (0, 0, 0, 0));
    let fill = begin(rt, space, ADDRESS);
    assert_eq!(rt; abandon(fill, space), Ok(first.frame), "it came back");
    assert_eq!(rt; census(space), (0, 0, 0, 0));
    assert_eq!(rt; map(space, ADDRESS, 3), Ok(first.frame), "again");
    assert_eq!(rt;
        touch(space, ADDRESS, 1),
        Ok((u64::from(first.frame) * 4096 + 0x34, Mark::Missed))
    );
}

fn lives<T: Tlb + Drop, F: FrameAllocator + Drop>(
    rt: &impl Abort,
    tlb: T,
    frames: F,
    first: First,
) {
    let mut space = Space::new(tlb, frames);
    is_filled(rt, &mut space, first);
    is_used(rt, &mut space, first);
    is_freed(rt, &mut space, first);
}

#[test]
fn a_page_is_filled_used_and_freed_on_a_free_list(rt: HostRuntime) {
    lives(&rt, OnePageTlb::new(), free_list(), LOWEST);
    lives(&rt, PartialSubblockTlb::new(), free_list(), LOWEST);
    lives(&rt, one_page_first(), free_list(), LOWEST);
    lives(&rt, OnePairTlb::new(), free_list(), LOWEST);
}

#[test]
fn a_page_is_filled_used_and_freed_on_a_reservation(rt: HostRuntime) {
    lives(&rt, OnePageTlb::new(), reservation(), PLACED);
    lives(&rt, PartialSubblockTlb::new(), reservation(), PLACED);
    lives(&rt, partial_first(), reservation(), PLACED);
    lives(&rt, OnePairTlb::new(), reservation(), PLACED);
}

#[test]
fn a_page_is_filled_used_and_freed_where_parts_count(rt: HostRuntime) {
    lives(
        &rt,
        CountedLoads {
            tlb: OnePageTlb::new(),
            loads: 0,
        },
        CountedRefusals {
            frames: reservation(),
            refusals: 0,
        },
        PLACED,
    );
}

// With the reservation from 16 * group on.
#[derive(Drop)]
struct Place {
    group: u16,
    address: u64,
    frame: u32,
    bits: u64,
    physical: u64,
}

#[test]
fn an_address_becomes_a_physical_address(rt: HostRuntime) {
    let places = [
        Place {
            group: 256,
            address: 0x41034,
            frame: 0x1001,
            bits: 0x0002_0000_0100_0003,
            physical: 16_781_364,
        },
        Place {
            group: 65_535,
            address: 0xFFFF_FFFF_FFFF_FFFF,
            frame: 0xF_FFFF,
            bits: 0x8000_0000_FFFF_0003,
            physical: 0xFFFF_FFFF,
        },
    ];
    for place in &places {
        let mut space = Space::new(OnePageTlb::new(), ReservationAllocator::new(place.group));
        assert_eq!(rt; map(&mut space, place.address, 3), Ok(place.frame));
        assert_eq!(rt; walk(&space, place.address), Ok((1, place.bits, 1)));
        assert_eq!(rt;
            touch(&mut space, place.address, 1),
            Ok((place.physical, Mark::Missed))
        );
        assert_eq!(rt;
            touch(&mut space, place.address, 1),
            Ok((place.physical, Mark::Hit))
        );
    }
}

// The marks of four touches of two pages of one block.
fn marks<T: Tlb + Drop>(rt: &impl Abort, tlb: T, expected: [Mark; 4]) {
    let mut space = Space::new(tlb, reservation());
    assert_eq!(rt; map(&mut space, 0x40000, 3), Ok(0x1000));
    assert_eq!(rt; map(&mut space, 0x41000, 3), Ok(0x1001));
    let pages: [u64; 4] = [0x40, 0x41, 0x40, 0x40];
    for i in 0..4usize {
        let physical = 0x100_0000 + (pages[i] - 0x40) * 4096;
        assert_eq!(rt;
            touch(&mut space, pages[i] * 4096, 1),
            Ok((physical, expected[i])),
            "touch {i}"
        );
    }
    keeps_its_neighbour(rt, &mut space);
}

// Page 0x40, which was touched last, stays in the TLB when page 0x41 goes.
fn keeps_its_neighbour<T: Tlb>(rt: &impl Abort, space: &mut Space<T, ReservationAllocator>) {
    assert_eq!(rt; protect(space, 0x41000, 1), Ok(3));
    assert_eq!(rt; touch(space, 0x40000, 2), Ok((0x100_0000, Mark::Hit)));
    assert_eq!(rt; touch(space, 0x41000, 2), Err(11), "the attributes are new");
    assert_eq!(rt;
        touch(space, 0x41000, 1),
        Ok((0x100_1000, Mark::Hit)),
        "the touch before took it in"
    );
}

#[test]
fn a_tlb_hits_what_it_has(rt: HostRuntime) {
    let (hit, missed) = (Mark::Hit, Mark::Missed);
    marks(&rt, OnePageTlb::new(), [missed, missed, hit, hit]);
    marks(&rt, PartialSubblockTlb::new(), [missed, hit, hit, hit]);
    marks(&rt, one_page_first(), [missed, hit, hit, hit]);
    marks(&rt, partial_first(), [missed, hit, hit, hit]);
    marks(&rt, OnePairTlb::new(), [missed, missed, missed, hit]);
    let small = TwoLevelTlb::new(OnePairTlb::new(), OnePageTlb::new());
    marks(&rt, small, [missed, missed, hit, hit]);
}

// The TLB comes with a pair of the page, which no space has made.
fn is_flushed<T: Tlb + Drop>(rt: &impl Abort, tlb: T) -> Result<(), Fail> {
    let mut tlb = tlb;
    let page = Page::of_address(ADDRESS);
    let translation = Translation::new(7, 7).ok_or("no translation")?;
    let word = Word::Full(FullWord::of_page(translation));
    tlb.load(Entry { page, word }, page);
    let mut space = Space::new(tlb, reservation());
    assert_eq!(rt; touch(&mut space, ADDRESS, 1), Err(9));
    assert_eq!(rt; map(&mut space, ADDRESS, 1), Ok(0x1001));
    assert_eq!(rt;
        touch(&mut space, ADDRESS, 1),
        Ok((16_781_364, Mark::Missed))
    );
    Ok(())
}

#[test]
fn a_new_space_forgets_what_its_tlb_had(rt: HostRuntime) -> Result<(), Fail> {
    is_flushed(&rt, OnePageTlb::new())?;
    is_flushed(&rt, PartialSubblockTlb::new())?;
    is_flushed(&rt, partial_first())?;
    is_flushed(&rt, OnePairTlb::new())
}
