// Examples of page reservation.
#![tactic(auto)]

#[cfg(test)]
mod tests {
    use frames::{AllocateFault, FrameAllocator, FreeFault};
    use reservation::ReservationAllocator;
    use words::Page;

    // As in the tests of the TLBs: a crate for this one line would be no plainer.
    fn page(number: u32) -> Page {
        Page::of_address(u64::from(number) * 4096)
    }

    // The first page of a block.
    fn block(number: u16) -> Page {
        page(u32::from(number) * 16)
    }

    #[test]
    fn a_block_gets_the_lowest_open_group_and_keeps_its_offsets(rt: HostRuntime) {
        let mut frames = ReservationAllocator::new(256);
        assert_eq!(rt; frames.allocate(page(0x41)), Ok(4097));
        assert_eq!(rt;
            frames.allocate(page(0x43)),
            Ok(4099),
            "the group of its block"
        );
        assert_eq!(rt; frames.allocate(page(0x52)), Ok(4114), "another block");
        assert_eq!(rt; frames.allocate(page(0x4f)), Ok(4111));
        assert_eq!(rt; frames.allocate(page(0x50)), Ok(4112));
    }

    #[test]
    fn a_page_that_cannot_be_placed_breaks_an_open_group(rt: HostRuntime) {
        let mut frames = ReservationAllocator::new(256);
        assert_eq!(rt; frames.allocate(page(0x41)), Ok(4097));
        let broken = frames.allocate(page(0x41)).unwrap_or(0);
        assert!(rt;
            4112 <= broken && broken < 8192,
            "not of the reserved group"
        );
        let spare = frames.allocate(page(0x41)).unwrap_or(0);
        assert_eq!(rt; spare / 16, broken / 16, "of the broken group");
        assert!(rt; spare != broken);
        assert_eq!(rt;
            frames.allocate(page(0x42)),
            Ok(4098),
            "its block keeps its group"
        );
    }

    #[test]
    fn the_group_reserved_longest_ago_breaks_first(rt: HostRuntime) {
        let mut frames = ReservationAllocator::new(0);
        for number in 0..256u16 {
            assert_eq!(rt; frames.allocate(block(number)), Ok(u32::from(number) * 16));
        }
        for _ in 0..15u8 {
            let frame = frames.allocate(block(7)).unwrap_or(9999);
            assert!(rt; frame != 0 && frame < 16, "the oldest group");
        }
        let frame = frames.allocate(block(7)).unwrap_or(9999);
        assert!(rt; 16 < frame && frame < 32, "the next one");
    }

    #[test]
    fn the_oldest_group_is_passed_over_while_it_has_nothing_in(rt: HostRuntime) {
        let mut frames = ReservationAllocator::new(0);
        for number in 0..256u16 {
            assert_eq!(rt; frames.allocate(block(number)), Ok(u32::from(number) * 16));
        }
        for number in 1..16u32 {
            assert_eq!(rt; frames.allocate(page(number)), Ok(number));
        }
        for _ in 0..15u8 {
            let frame = frames.allocate(block(300)).unwrap_or(9999);
            assert!(rt; 16 < frame && frame < 32, "the next one");
        }
        assert_eq!(rt; frames.free(3), Ok(()));
        assert_eq!(rt; frames.allocate(block(300)), Ok(3), "the oldest again");
    }

    #[test]
    fn a_block_whose_group_broke_reserves_another(rt: HostRuntime) {
        let mut frames = ReservationAllocator::new(0);
        for number in 0..256u16 {
            assert_eq!(rt; frames.allocate(block(number)), Ok(u32::from(number) * 16));
        }
        let frame = frames.allocate(block(300)).unwrap_or(9999);
        assert!(rt; 0 < frame && frame < 16, "of the group of block 0");
        assert_eq!(rt; frames.free(80), Ok(()));
        assert_eq!(rt; frames.allocate(page(3)), Ok(83), "the group that opened");
        assert_eq!(rt;
            frames.allocate(page(4)),
            Ok(84),
            "is now reserved for block 0"
        );
        let frame = frames.allocate(page(85)).unwrap_or(9999);
        assert!(rt; 0 < frame && frame < 16, "block 5 has none");
    }

    #[test]
    fn a_group_that_opens_forgets_its_block_and_its_age(rt: HostRuntime) {
        let mut frames = ReservationAllocator::new(0);
        for number in 0..256u16 {
            assert_eq!(rt; frames.allocate(block(number)), Ok(u32::from(number) * 16));
        }
        assert_eq!(rt; frames.free(0), Ok(()));
        assert_eq!(rt; frames.allocate(block(300)), Ok(0));
        let frame = frames.allocate(block(300)).unwrap_or(9999);
        assert!(rt; 16 < frame && frame < 32, "group 0 is the youngest now");
    }

    #[test]
    fn every_frame_goes_out_once(rt: HostRuntime) {
        let mut frames = ReservationAllocator::new(65_535);
        for number in 0..4096u32 {
            assert_eq!(rt; frames.allocate(page(number)), Ok(1_048_560 + number));
        }
        assert_eq!(rt; frames.allocate(page(0)), Err(AllocateFault::AllOut));
        assert_eq!(rt; frames.allocate(page(9000)), Err(AllocateFault::AllOut));
        assert_eq!(rt; frames.free(1_048_565), Ok(()));
        assert_eq!(rt;
            frames.free(1_048_565),
            Err(FreeFault::NotOut),
            "freed twice"
        );
        assert_eq!(rt; frames.allocate(page(9000)), Ok(1_048_565), "the only one");
        assert_eq!(rt; frames.allocate(page(5)), Err(AllocateFault::AllOut));
    }

    #[test]
    fn only_a_frame_that_is_out_can_come_in(rt: HostRuntime) {
        let mut frames = ReservationAllocator::new(256);
        assert_eq!(rt; frames.free(4096), Err(FreeFault::NotOut), "in");
        assert_eq!(rt;
            frames.free(4095),
            Err(FreeFault::NotOut),
            "below the stock"
        );
        assert_eq!(rt; frames.free(8192), Err(FreeFault::NotOut), "past the stock");
        assert_eq!(rt; frames.allocate(page(0x40)), Ok(4096));
        assert_eq!(rt; frames.free(4097), Err(FreeFault::NotOut), "another offset");
        assert_eq!(rt; frames.free(4112), Err(FreeFault::NotOut), "another group");
        assert_eq!(rt; frames.free(4096), Ok(()));
    }
}
