// Examples of the TLBs: more loads than slots, purges between, three levels, and a kind of slot that is not copied.
#![tactic(auto)]

mod counting;
mod owned;

pub use counting::CountingTlb;
pub use owned::OwnedSlot;

#[cfg(test)]
mod tests {
    use crate::counting::CountingTlb;
    use crate::owned::OwnedSlot;
    use std::test::Fail;
    use tlb::{Entry, OnePageTlb, PartialSubblockTlb, Tlb, TwoLevelTlb, find, place, purge};
    use words::{CompactWord, FullWord, OffsetSet, Page, Translation, Word};

    // As in the tests of the reservation: a crate for this one line would be no plainer.
    fn page(number: u32) -> Page {
        Page::of_address(u64::from(number) * 4096)
    }

    // Loads the page with a full word.
    fn load_page<T: Tlb>(
        tlb: &mut T,
        number: u32,
        frame: u32,
        attributes: u16,
    ) -> Result<(), Fail> {
        let translation = Translation::new(frame, attributes).ok_or_else(|| Fail::new(
            "frame or attributes out of range",
        ))?;
        let entry = Entry {
            page: page(number),
            word: Word::Full(FullWord::of_page(translation)),
        };
        tlb.load(entry, page(number));
        Ok(())
    }

    // Loads the page with the compact word of its block.
    fn load_block<T: Tlb>(
        tlb: &mut T,
        number: u32,
        offsets: u16,
        frame_block: u32,
    ) -> Result<(), Fail> {
        let word = CompactWord::from_parts(OffsetSet { bits: offsets }, frame_block, 3).ok_or_else(
            || Fail::new("no compact word"),
        )?;
        let entry = Entry {
            page: page(number),
            word: Word::Compact(word),
        };
        tlb.load(entry, page(number));
        Ok(())
    }

    fn frame_of<T: Tlb>(tlb: &mut T, number: u32) -> Option<u32> {
        let translation = tlb.probe(page(number))?;
        Some(translation.frame)
    }

    #[test]
    fn one_page_slots_go_round(rt: HostRuntime) -> Result<(), Fail> {
        let mut tlb = OnePageTlb::new();
        for number in 0..65u32 {
            load_page(&mut tlb, number, 0x1000 + number, 3)?;
        }
        assert_eq!(rt; frame_of(&mut tlb, 0), None, "page 64 took slot 0");
        assert_eq!(rt; frame_of(&mut tlb, 64), Some(0x1040));
        load_page(&mut tlb, 5, 7, 1)?;
        assert_eq!(rt; frame_of(&mut tlb, 5), Some(7), "overwritten in its slot");
        load_page(&mut tlb, 100, 8, 1)?;
        assert_eq!(rt; frame_of(&mut tlb, 1), None, "the hand stayed at slot 1");
        assert_eq!(rt; frame_of(&mut tlb, 2), Some(0x1002));
        tlb.purge(page(2));
        assert_eq!(rt; frame_of(&mut tlb, 2), None);
        tlb.flush();
        assert_eq!(rt; frame_of(&mut tlb, 64), None);
        Ok(())
    }

    #[test]
    fn partial_slots_lose_pages_one_by_one(rt: HostRuntime) -> Result<(), Fail> {
        let mut tlb = PartialSubblockTlb::new();
        load_block(&mut tlb, 0x41, 0xFFFF, 0x100)?;
        assert_eq!(rt;
            frame_of(&mut tlb, 0x4F),
            Some(0x100F),
            "a neighbour came too"
        );
        tlb.purge(page(0x41));
        assert_eq!(rt; frame_of(&mut tlb, 0x41), None);
        assert_eq!(rt; frame_of(&mut tlb, 0x40), Some(0x1000));
        load_page(&mut tlb, 0x42, 7, 1)?;
        assert_eq!(rt;
            frame_of(&mut tlb, 0x42),
            Some(7),
            "the older slot lost the page"
        );
        load_block(&mut tlb, 0x43, 0x000C, 0x200)?;
        assert_eq!(rt; frame_of(&mut tlb, 0x42), Some(0x2002));
        assert_eq!(rt; frame_of(&mut tlb, 0x44), Some(0x1004));
        load_block(&mut tlb, 0x45, 0x0001, 0x300)?;
        assert_eq!(rt;
            frame_of(&mut tlb, 0x40),
            Some(0x1000),
            "page 0x45 is not in that word"
        );
        for block in 1..64u32 {
            load_block(&mut tlb, 0x1000 + block * 16, 0xFFFF, block)?;
        }
        assert_eq!(rt;
            frame_of(&mut tlb, 0x44),
            None,
            "slots 3 to 63, then 0 and 1 were filled"
        );
        assert_eq!(rt; frame_of(&mut tlb, 0x42), Some(0x2002));
        Ok(())
    }

    #[test]
    fn three_levels(rt: HostRuntime) -> Result<(), Fail> {
        let below = TwoLevelTlb::new(PartialSubblockTlb::new(), OnePageTlb::new());
        let mut tlb = TwoLevelTlb::new(OnePageTlb::new(), below);
        load_block(&mut tlb, 0x41, 0x0006, 0x100)?;
        assert_eq!(rt;
            frame_of(&mut tlb.first, 0x42),
            None,
            "only the page itself came to the first level"
        );
        assert_eq!(rt;
            frame_of(&mut tlb, 0x42),
            Some(0x1002),
            "the second level has its neighbour"
        );
        assert_eq!(rt;
            frame_of(&mut tlb.first, 0x42),
            Some(0x1002),
            "and the first level has it now"
        );
        tlb.purge(page(0x41));
        assert_eq!(rt; frame_of(&mut tlb, 0x41), None);
        assert_eq!(rt; frame_of(&mut tlb.second.second, 0x41), None);
        tlb.flush();
        assert_eq!(rt; frame_of(&mut tlb, 0x42), None);
        Ok(())
    }

    #[test]
    fn a_load_that_brings_nothing(rt: HostRuntime) -> Result<(), Fail> {
        let mut tlb = CountingTlb {
            tlb: OnePageTlb::new(),
            loads: 0,
        };
        for number in 0..64u32 {
            load_page(&mut tlb, number, 0x1000 + number, 3)?;
        }
        let other = Translation::new(9, 3).ok_or_else(|| Fail::new("out of range"))?;
        let entry = Entry {
            page: page(70),
            word: Word::Full(FullWord::of_page(other)),
        };
        tlb.load(entry, page(71));
        assert_eq!(rt; tlb.loads, 65, "it is counted");
        assert_eq!(rt; frame_of(&mut tlb, 70), None);
        assert_eq!(rt; frame_of(&mut tlb, 0), Some(0x1000), "it took no slot");
        load_page(&mut tlb, 64, 7, 3)?;
        assert_eq!(rt; frame_of(&mut tlb, 0), None, "the hand was still at slot 0");
        assert_eq!(rt; frame_of(&mut tlb, 1), Some(0x1001));
        Ok(())
    }

    // A slot that holds the page with the frame.
    fn slot_of(number: u32, frame: u32) -> Result<OwnedSlot, Fail> {
        let translation = Translation::new(frame, 3).ok_or_else(|| Fail::new(
            "frame out of range",
        ))?;
        Ok(OwnedSlot {
            page: page(number),
            translation,
        })
    }

    fn found_frame(slots: &[Option<OwnedSlot>], number: u32) -> Option<u32> {
        let translation = find(slots, page(number))?;
        Some(translation.frame)
    }

    #[test]
    fn slots_that_are_not_copied(rt: HostRuntime) -> Result<(), Fail> {
        let mut slots = [
            None,
            Some(slot_of(7, 0x1007)?),
            Some(slot_of(5, 0x1005)?),
            Some(slot_of(5, 0x2005)?),
        ];
        assert_eq!(rt; place(&slots, page(5)), Some(2), "the first of two");
        assert_eq!(rt; found_frame(&slots, 5), Some(0x1005));
        assert_eq!(rt; place(&slots, page(6)), None);
        assert_eq!(rt; found_frame(&slots, 6), None);
        purge(&mut slots, page(5));
        assert_eq!(rt; place(&slots, page(5)), None, "both were emptied");
        assert_eq!(rt; found_frame(&slots, 5), None);
        assert_eq!(rt; place(&slots, page(7)), Some(1));
        assert_eq!(rt; found_frame(&slots, 7), Some(0x1007));
        Ok(())
    }
}
