// Examples of refusals.
use crate::no_frames::NoFrames;
use crate::one_pair::OnePairTlb;
use crate::steps::{
    ADDRESS, abandon, begin, begin_in_vain, census, free_list, map, one_page_first, partial_first,
    protect, release, reservation, settle, touch,
};
use frames::{FrameAllocator, FreeListAllocator};
use space::{Mark, SettleFault, Space, Unsettled};
use std::process::Abort;
use tlb::{OnePageTlb, Tlb};
use words::Page;

// All frames but the last are out before the space is made.
fn has_one_frame<F: FrameAllocator + Drop>(rt: &impl Abort, frames: F) {
    let mut frames = frames;
    for number in 0..4095u64 {
        assert!(rt; frames.allocate(Page::of_address(number * 4096)).is_ok());
    }
    let mut space = Space::new(OnePairTlb::new(), frames);
    let fill = begin(rt, &mut space, ADDRESS);
    assert_eq!(rt; fill.frame(), 0x1FFF);
    assert_eq!(rt; begin_in_vain(&mut space, 0x50000), Err(4));
    assert_eq!(rt; begin_in_vain(&mut space, ADDRESS), Err(2), "before 4");
    assert_eq!(rt; settle(fill, &mut space, 3), Ok(0x1FFF));
    assert_eq!(rt; begin_in_vain(&mut space, 0x50000), Err(4));
    assert_eq!(rt; begin_in_vain(&mut space, ADDRESS), Err(1), "before 4");
    assert_eq!(rt; release(&mut space, ADDRESS), Ok((0x1FFF, 3)));
    assert_eq!(rt; map(&mut space, 0x50000, 3), Ok(0x1FFF));
    assert_eq!(rt; begin_in_vain(&mut space, ADDRESS), Err(4));
}

#[test]
fn a_frame_that_was_out_is_not_handed_out(rt: HostRuntime) {
    has_one_frame(&rt, free_list());
    has_one_frame(&rt, reservation());
}

#[test]
fn without_frames_no_fill_is_begun(rt: HostRuntime) {
    let mut space = Space::new(OnePairTlb::new(), NoFrames);
    assert_eq!(rt; begin_in_vain(&mut space, ADDRESS), Err(4));
    assert_eq!(rt; release(&mut space, ADDRESS), Err(9));
    assert_eq!(rt; protect(&mut space, ADDRESS, 3), Err(9));
    assert_eq!(rt; touch(&mut space, ADDRESS, 1), Err(9));
    assert_eq!(rt; census(&space), (0, 0, 0, 0));
}

// The answer to a fill for an address while fills of the pages from 1 on are under way. Each is abandoned in the end.
fn begin_beside<T: Tlb, F: FrameAllocator>(
    space: &mut Space<T, F>,
    fills: u8,
    address: u64,
) -> Result<u32, u64> {
    if fills == 0 {
        return begin_in_vain(space, address);
    }
    match space.begin(u64::from(fills) * 4096) {
        Ok(fill) => {
            let answer = begin_beside(space, fills - 1, address);
            let _ = fill.abandon(space);
            answer
        }
        Err(fault) => Err(u64::from(fault)),
    }
}

// The frame of a 32nd fill shows that a refused one keeps no frame.
fn takes_32_fills<T: Tlb + Drop, F: FrameAllocator + Drop>(
    rt: &impl Abort,
    tlb: T,
    frames: F,
    frame: u32,
) {
    let mut space = Space::new(tlb, frames);
    assert!(rt; map(&mut space, ADDRESS, 3).is_ok());
    let answers: [(u8, u64, u64); 5] = [
        (32, 0x50000, 3),
        (32, 0x1FFF, 2),
        (32, ADDRESS, 1),
        (31, 0x1FFF, 2),
        (31, ADDRESS, 1),
    ];
    for (fills, address, number) in answers {
        assert_eq!(rt;
            begin_beside(&mut space, fills, address),
            Err(number),
            "{fills} fills, and {address}"
        );
    }
    assert_eq!(rt; begin_beside(&mut space, 31, 0x50000), Ok(frame));
    assert_eq!(rt; census(&space).3, 0);
}

#[test]
fn after_32_fills_there_is_room_for_no_other(rt: HostRuntime) {
    takes_32_fills(&rt, OnePairTlb::new(), free_list(), 0x1020);
    takes_32_fills(&rt, one_page_first(), reservation(), 0x1030);
}

#[test]
fn a_fill_that_is_not_settled_comes_back(rt: HostRuntime) {
    let mut space = Space::new(OnePageTlb::new(), reservation());
    let fill = begin(&rt, &mut space, ADDRESS);
    match fill.settle(&mut space, 4096) {
        Ok(_) => panic!(rt; "there are no such attributes"),
        Err(Unsettled { fill, fault }) => {
            assert_eq!(rt; fault, SettleFault::BadAttributes);
            assert_eq!(rt; (fill.page().number, fill.frame()), (0x41, 0x1001));
            assert_eq!(rt; census(&space), (0, 0, 0, 1));
            assert_eq!(rt; settle(fill, &mut space, 4095), Ok(0x1001));
        }
    }
    assert_eq!(rt; map(&mut space, 0x42000, 4096), Err(5));
    assert_eq!(rt; release(&mut space, ADDRESS), Ok((0x1001, 4095)));
}

#[test]
fn a_fill_is_settled_at_its_own_space_alone(rt: HostRuntime) {
    let mut space = Space::new(OnePageTlb::new(), free_list());
    let mut other = Space::new(OnePairTlb::new(), FreeListAllocator::new(512));
    let own = begin(&rt, &mut space, ADDRESS);
    match begin(&rt, &mut other, ADDRESS).settle(&mut space, 3) {
        Ok(_) => panic!(rt; "the frame is another space's"),
        Err(Unsettled { fill, fault }) => {
            assert_eq!(rt; fault, SettleFault::NoFill);
            assert_eq!(rt; abandon(fill, &mut other), Ok(0x2000));
        }
    }
    assert_eq!(rt; census(&space), (0, 0, 0, 1));
    assert_eq!(rt; settle(own, &mut space, 3), Ok(0x1000));
    assert_eq!(rt; census(&other), (0, 0, 0, 0));
}

#[test]
fn a_fill_abandoned_elsewhere_stays_under_way(rt: HostRuntime) {
    let mut space = Space::new(OnePageTlb::new(), free_list());
    let mut other = Space::new(OnePairTlb::new(), FreeListAllocator::new(512));
    let fill = begin(&rt, &mut other, ADDRESS);
    assert_eq!(rt; abandon(fill, &mut space), Err(6));
    assert_eq!(rt; census(&space), (0, 0, 0, 0));
    assert_eq!(rt; census(&other), (0, 0, 0, 1));
    assert_eq!(rt; begin_in_vain(&mut other, ADDRESS), Err(2));
}

#[test]
fn after_256_blocks_there_is_no_node(rt: HostRuntime) {
    let mut space = Space::new(OnePageTlb::new(), reservation());
    for block in 0..256u16 {
        assert_eq!(rt;
            map(&mut space, u64::from(block) * 0x1_0000, 3),
            Ok(0x1000 + u32::from(block) * 16)
        );
    }
    assert_eq!(rt; census(&space), (256, 0, 256, 0));
    assert_eq!(rt; map(&mut space, 0x100_0000, 3), Err(7));
    assert_eq!(rt; census(&space), (256, 0, 256, 0));
    assert_eq!(rt;
        map(&mut space, 0x1_1000, 3),
        Ok(0x1011),
        "a page of a used block"
    );
    assert_eq!(rt; release(&mut space, 0x2_0000), Ok((0x1020, 3)));
    assert_eq!(rt;
        map(&mut space, 0x100_0000, 3),
        Ok(0x1020),
        "the node and the group that came free"
    );
    assert_eq!(rt; census(&space), (256, 0, 257, 0));
}

// A misplaced page in each of 128 blocks: the frame of block n is 0x1000 + n, and the page is one offset on.
fn full_of_rows(rt: &impl Abort) -> Space<OnePageTlb, FreeListAllocator> {
    let mut space = Space::new(OnePageTlb::new(), free_list());
    for block in 0..128u16 {
        let page = u64::from(block) * 16 + u64::from((block + 1) % 16);
        assert_eq!(rt;
            map(&mut space, page * 4096, 3),
            Ok(0x1000 + u32::from(block))
        );
    }
    space
}

#[test]
fn after_128_misplaced_pages_there_is_no_row(rt: HostRuntime) {
    let mut space = full_of_rows(&rt);
    assert_eq!(rt; census(&space), (128, 128, 128, 0));
    assert_eq!(rt; map(&mut space, 0x80_1000, 3), Err(8), "misplaced");
    assert_eq!(rt; map(&mut space, 0x80_0000, 3), Ok(0x1080));
    assert_eq!(rt; map(&mut space, 0x80_1000, 1), Err(8), "other attributes");
    assert_eq!(rt; map(&mut space, 0x80_1000, 3), Ok(0x1081));
    assert_eq!(rt; touch(&mut space, 0x80_1000, 1).is_ok(), true);
    assert_eq!(rt; protect(&mut space, 0x80_1000, 1), Err(8));
    assert_eq!(rt;
        touch(&mut space, 0x80_1000, 1),
        Ok((0x108_1000, Mark::Hit)),
        "not purged"
    );
    assert_eq!(rt; census(&space), (129, 128, 130, 0));
    assert_eq!(rt; release(&mut space, 0x1000), Ok((0x1000, 3)));
    assert_eq!(rt;
        protect(&mut space, 0x80_1000, 1),
        Ok(3),
        "the row that came free"
    );
    assert_eq!(rt; census(&space), (128, 128, 129, 0));
}

// The page 0x41 may be read and written, the page 0x42 executed, and the page 0x50 is not mapped.
fn refuses<T: Tlb + Drop>(rt: &impl Abort, tlb: T) {
    let mut space = Space::new(tlb, reservation());
    assert_eq!(rt; map(&mut space, 0x41000, 3), Ok(0x1001));
    assert_eq!(rt; map(&mut space, 0x42000, 4), Ok(0x1002));
    let touches: [(u64, u8, u64); 8] = [
        (0x41000, 0, 10),
        (0x41000, 3, 10),
        (0x50000, 255, 10),
        (0x50000, 1, 9),
        (0x41000, 4, 11),
        (0x42000, 5, 10),
        (0x42000, 1, 11),
        (0x42000, 2, 11),
    ];
    for (address, access, number) in touches {
        assert_eq!(rt;
            touch(&mut space, address, access),
            Err(number),
            "{access} at {address}"
        );
    }
    let protects: [(u64, u16, u64); 3] = [
        (0x42000, 4096, 5),
        (0x50000, 4096, 5),
        (0x50000, 4095, 9),
    ];
    for (address, attributes, number) in protects {
        assert_eq!(rt; protect(&mut space, address, attributes), Err(number));
    }
    assert_eq!(rt; touch(&mut space, 0x42000, 4), Ok((0x100_2000, Mark::Hit)));
}

#[test]
fn accesses_and_attributes_are_refused_in_order(rt: HostRuntime) {
    refuses(&rt, OnePageTlb::new());
    refuses(&rt, partial_first());
    refuses(&rt, OnePairTlb::new());
}
