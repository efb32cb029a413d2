// Examples at the edges of the word formats and of the lines that `wordread` takes: what is expected is written out from the formats.
#![tactic(auto)]

#[cfg(test)]
mod lines;

#[cfg(test)]
mod tests {
    use std::test::Fail;
    use words::{
        Access, CompactWord, FullWord, OffsetSet, Page, ReadFault, Translation, read_word,
    };

    // Forms as the exported reader takes them, by their numbers.
    const COMPACT: u64 = 1;

    const FULL: u64 = 2;

    fn full(frame: u32, attributes: u16) -> Option<u64> {
        let word = FullWord::of_page(Translation::new(frame, attributes)?);
        Some(word.bits)
    }

    fn compact(offsets: u16, frame_block: u32, attributes: u16) -> Option<u64> {
        let word = CompactWord::from_parts(OffsetSet { bits: offsets }, frame_block, attributes)?;
        Some(word.bits)
    }

    #[test]
    fn largest_parts_fit_and_larger_ones_are_refused(rt: HostRuntime) {
        assert_eq!(rt; full(0xFFF_FFFF, 0), Some(0x8000_00FF_FFFF_F000));
        assert_eq!(rt; full(0xFFF_FFFF, 4095), Some(0x8000_00FF_FFFF_FFFF));
        assert_eq!(rt; full(0, 0), Some(0x8000_0000_0000_0000));
        assert_eq!(rt; full(0x1000_0000, 0), None);
        assert_eq!(rt; full(0, 4096), None);
        assert_eq!(rt;
            compact(0xFFFF, 0xFF_FFFF, 4095),
            Some(0xFFFF_00FF_FFFF_0FFF)
        );
        assert_eq!(rt; compact(1, 0, 0), Some(0x0001_0000_0000_0000));
        assert_eq!(rt; compact(0, 0x100, 3), None);
        assert_eq!(rt; compact(1, 0x100_0000, 3), None);
        assert_eq!(rt; compact(1, 0x100, 4096), None);
    }

    // Block 4 on the frames 0x1000 to 0x100F, one page at a time: only the page's own offset is in the word.
    #[test]
    fn each_offset_has_its_bit_and_its_frame(rt: HostRuntime) {
        let words: [u64; 16] = [
            0x0001_0000_0100_0003,
            0x0002_0000_0100_0003,
            0x0004_0000_0100_0003,
            0x0008_0000_0100_0003,
            0x0010_0000_0100_0003,
            0x0020_0000_0100_0003,
            0x0040_0000_0100_0003,
            0x0080_0000_0100_0003,
            0x0100_0000_0100_0003,
            0x0200_0000_0100_0003,
            0x0400_0000_0100_0003,
            0x0800_0000_0100_0003,
            0x1000_0000_0100_0003,
            0x2000_0000_0100_0003,
            0x4000_0000_0100_0003,
            0x8000_0000_0100_0003,
        ];
        for (k, word) in words.iter().enumerate() {
            for offset in 0..16u32 {
                let expected = if k == offset as usize {
                    Ok(Translation {
                        frame: 0x1000 + offset,
                        attributes: 3,
                    })
                } else {
                    Err(ReadFault::NotMapped)
                };
                assert_eq!(rt; read_word(COMPACT, *word, u64::from(offset)), expected);
            }
        }
    }

    #[test]
    fn word_zero_is_an_empty_full_word_and_no_compact_word(rt: HostRuntime) {
        assert_eq!(rt; read_word(FULL, 0, 0), Err(ReadFault::NotMapped));
        assert_eq!(rt; read_word(FULL, 0, 15), Err(ReadFault::NotMapped));
        assert_eq!(rt; read_word(FULL, 0, 16), Err(ReadFault::BadWord));
        assert_eq!(rt; read_word(COMPACT, 0, 0), Err(ReadFault::BadWord));
    }

    // The compact word of page 0x41 on frame 0x1001, with each bit that has no meaning set in turn.
    #[test]
    fn each_stray_bit_of_a_compact_word_is_refused(rt: HostRuntime) {
        let words: [u64; 12] = [
            0x0002_0000_0100_1003,
            0x0002_0000_0100_2003,
            0x0002_0000_0100_4003,
            0x0002_0000_0100_8003,
            0x0002_0100_0100_0003,
            0x0002_0200_0100_0003,
            0x0002_0400_0100_0003,
            0x0002_0800_0100_0003,
            0x0002_1000_0100_0003,
            0x0002_2000_0100_0003,
            0x0002_4000_0100_0003,
            0x0002_8000_0100_0003,
        ];
        for word in words.iter() {
            assert_eq!(rt; read_word(COMPACT, *word, 1), Err(ReadFault::BadWord));
        }
    }

    // The full word of frame 0x1000, likewise.
    #[test]
    fn each_stray_bit_of_a_full_word_is_refused(rt: HostRuntime) {
        let words: [u64; 23] = [
            0x8000_0100_0100_0003,
            0x8000_0200_0100_0003,
            0x8000_0400_0100_0003,
            0x8000_0800_0100_0003,
            0x8000_1000_0100_0003,
            0x8000_2000_0100_0003,
            0x8000_4000_0100_0003,
            0x8000_8000_0100_0003,
            0x8001_0000_0100_0003,
            0x8002_0000_0100_0003,
            0x8004_0000_0100_0003,
            0x8008_0000_0100_0003,
            0x8010_0000_0100_0003,
            0x8020_0000_0100_0003,
            0x8040_0000_0100_0003,
            0x8080_0000_0100_0003,
            0x8100_0000_0100_0003,
            0x8200_0000_0100_0003,
            0x8400_0000_0100_0003,
            0x8800_0000_0100_0003,
            0x9000_0000_0100_0003,
            0xA000_0000_0100_0003,
            0xC000_0000_0100_0003,
        ];
        for word in words.iter() {
            assert_eq!(rt; read_word(FULL, *word, 1), Err(ReadFault::BadWord));
        }
    }

    #[test]
    fn pages_come_and_go_in_a_compact_word(rt: HostRuntime) -> Result<(), Fail> {
        let first = Page::of_address(0x41034).offset();
        let last = Page::of_address(0x4F000).offset();
        let page = Translation {
            frame: 0x1001,
            attributes: 3,
        };
        assert!(rt; page.allows(Access::Write) && !page.allows(Access::Execute));
        let word = CompactWord::of_page(first, page).ok_or_else(|| Fail::new(
            "page 0x41 is properly placed on frame 0x1001",
        ))?;
        assert_eq!(rt; word.bits, 0x0002_0000_0100_0003);
        assert!(rt; word.without(first).is_none());
        let both = word.with(last);
        assert_eq!(rt; both.bits, 0x8002_0000_0100_0003);
        let rest = both
            .without(first)
            .ok_or_else(|| Fail::new("page 0x4F is left"))?;
        assert_eq!(rt; rest.bits, 0x8000_0000_0100_0003);
        Ok(())
    }
}
