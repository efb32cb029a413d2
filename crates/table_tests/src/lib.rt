// Examples of the page table.
#![tactic(auto)]

#[cfg(test)]
mod tests {
    use table::{
        MapFault, NotMapped, PageTable, ProtectFault, TableCall, TableCensus, TableEvent,
        replay_table,
    };
    use words::{Page, Translation, Word};

    fn page(number: u64) -> Page {
        Page::of_address(number % 0x10_0000_0000_0000 * 4096)
    }

    // Frames and attributes of the tests are in range.
    fn to(frame: u32, attributes: u16) -> Translation {
        Translation {
            frame: frame % 0x1000_0000,
            attributes: attributes % 0x1000,
        }
    }

    fn census(nodes: u16, rows: u16, pages: u16) -> TableCensus {
        TableCensus { nodes, rows, pages }
    }

    // The form and the bits of a page's word, and how many nodes were looked at; zeros where the page is not mapped.
    fn walked(table: &PageTable, number: u64) -> (u64, u64, u16) {
        match table.walk(page(number)) {
            Ok(walked) => (
                u64::from(walked.word.form()),
                walked.word.bits(),
                walked.looked,
            ),
            Err(_) => (0, 0, 0),
        }
    }

    // The sixteen pages of block 4 on the frames from 0x1000 on.
    fn whole_block() -> PageTable {
        let mut table = PageTable::new();
        for offset in 0..16u8 {
            let _ = table.map(
                page(0x40 + u64::from(offset)),
                to(0x1000 + u32::from(offset), 3),
            );
        }
        table
    }

    #[test]
    fn a_block_is_compact_broken_compact_again_and_gone(rt: HostRuntime) {
        let mut table = whole_block();
        assert_eq!(rt; walked(&table, 0x41), (1, 0xFFFF_0000_0100_0003, 1));
        assert_eq!(rt; table.census(), census(1, 0, 16));
        assert_eq!(rt; table.protect(page(0x41), 1), Ok(3));
        assert_eq!(rt; walked(&table, 0x41), (2, 0x8000_0000_0100_1001, 1));
        assert_eq!(rt;
            walked(&table, 0x42),
            (2, 0x8000_0000_0100_2003, 1),
            "its neighbour"
        );
        assert_eq!(rt; table.census(), census(1, 1, 16));
        assert_eq!(rt; table.protect(page(0x41), 3), Ok(1));
        assert_eq!(rt; walked(&table, 0x41), (1, 0xFFFF_0000_0100_0003, 1));
        assert_eq!(rt; table.census(), census(1, 0, 16), "the row is given back");
        assert_eq!(rt; table.unmap(page(0x41)), Ok(to(0x1001, 3)));
        assert_eq!(rt; walked(&table, 0x42), (1, 0xFFFD_0000_0100_0003, 1));
        assert_eq!(rt; walked(&table, 0x41), (0, 0, 0));
        for offset in 2..16u8 {
            assert_eq!(rt;
                table.unmap(page(0x40 + u64::from(offset))),
                Ok(to(0x1000 + u32::from(offset), 3))
            );
        }
        assert_eq!(rt; walked(&table, 0x40), (1, 0x0001_0000_0100_0003, 1));
        assert_eq!(rt; table.unmap(page(0x40)), Ok(to(0x1000, 3)));
        assert_eq!(rt; table.census(), census(0, 0, 0));
    }

    #[test]
    fn a_misplaced_page_has_a_row(rt: HostRuntime) {
        let mut table = PageTable::new();
        assert_eq!(rt; table.map(page(0x41), to(0x1000, 3)), Ok(()));
        assert_eq!(rt; walked(&table, 0x41), (2, 0x8000_0000_0100_0003, 1));
        assert_eq!(rt; table.census(), census(1, 1, 1));
        assert_eq!(rt; table.map(page(0x42), to(0x2002, 3)), Ok(()));
        assert_eq!(rt; table.unmap(page(0x41)), Ok(to(0x1000, 3)));
        assert_eq!(rt;
            walked(&table, 0x42),
            (1, 0x0004_0000_0200_0003, 1),
            "compact now"
        );
        assert_eq!(rt; table.census(), census(1, 0, 1));
    }

    #[test]
    fn refusals_come_in_their_order_and_change_nothing(rt: HostRuntime) {
        let mut table = PageTable::new();
        assert_eq!(rt; table.map(page(0x41), to(0x1001, 4095)), Ok(()));
        assert_eq!(rt; table.map(page(0x41), to(0x1000, 3)), Err(MapFault::Mapped));
        assert_eq!(rt;
            table.protect(page(0x41), 4096),
            Err(ProtectFault::BadAttributes)
        );
        assert_eq!(rt;
            table.protect(page(0x42), 4096),
            Err(ProtectFault::BadAttributes)
        );
        assert_eq!(rt;
            table.protect(page(0x42), 4095),
            Err(ProtectFault::NotMapped)
        );
        assert_eq!(rt; table.unmap(page(0x42)), Err(NotMapped));
        assert_eq!(rt; table.walk(page(0x51)).is_err(), true);
        assert_eq!(rt; table.lookup(page(0x41)), Some(to(0x1001, 4095)));
        assert_eq!(rt; table.census(), census(1, 0, 1));
    }

    #[test]
    fn after_256_blocks_there_is_no_node(rt: HostRuntime) {
        let mut table = PageTable::new();
        for block in 0..256u16 {
            let number = u64::from(block) * 16;
            assert_eq!(rt;
                table.map(page(number), to(u32::from(block) * 16, 3)),
                Ok(())
            );
        }
        assert_eq!(rt; table.census(), census(256, 0, 256));
        assert_eq!(rt; table.map(page(4096), to(4096, 3)), Err(MapFault::NoNode));
        assert_eq!(rt;
            table.map(page(4096), to(1, 3)),
            Err(MapFault::NoNode),
            "before rows"
        );
        assert_eq!(rt;
            table.map(page(1), to(1, 3)),
            Ok(()),
            "a page of a used block"
        );
        assert_eq!(rt; table.unmap(page(16)), Ok(to(16, 3)));
        assert_eq!(rt;
            table.map(page(4096), to(4096, 3)),
            Ok(()),
            "the node that came free"
        );
        assert_eq!(rt; table.census(), census(256, 0, 257));
    }

    #[test]
    fn after_128_misplaced_pages_there_is_no_row(rt: HostRuntime) {
        let mut table = PageTable::new();
        for block in 0..128u16 {
            let number = u64::from(block) * 16;
            assert_eq!(rt;
                table.map(page(number), to(u32::from(block) * 16 + 1, 3)),
                Ok(())
            );
        }
        assert_eq!(rt; table.census(), census(128, 128, 128));
        assert_eq!(rt; table.map(page(2048), to(2049, 3)), Err(MapFault::NoRow));
        assert_eq!(rt;
            table.map(page(2048), to(2048, 3)),
            Ok(()),
            "properly placed"
        );
        assert_eq!(rt;
            table.map(page(2049), to(2049, 1)),
            Err(MapFault::NoRow),
            "other attributes"
        );
        assert_eq!(rt; table.map(page(2049), to(2049, 3)), Ok(()));
        assert_eq!(rt; table.protect(page(2049), 1), Err(ProtectFault::NoRow));
        assert_eq!(rt; table.protect(page(2049), 3), Ok(3), "stays compact");
        assert_eq!(rt;
            table.map(page(1), to(77, 3)),
            Ok(()),
            "a block that has a row"
        );
        assert_eq!(rt; table.unmap(page(16)), Ok(to(17, 3)));
        assert_eq!(rt;
            table.protect(page(2049), 1),
            Ok(3),
            "the row that came free"
        );
        assert_eq!(rt; table.census(), census(128, 128, 130));
    }

    // The blocks 0, 127, 190 and 253 are of one bucket.
    #[test]
    fn a_chain_keeps_its_order(rt: HostRuntime) {
        let mut table = PageTable::new();
        for block in [0u64, 127, 190, 253] {
            assert_eq!(rt; table.map(page(block * 16), to(0x2000, 3)), Ok(()));
        }
        let words = |table: &PageTable| {
            (
                walked(table, 0).2,
                walked(table, 127 * 16).2,
                walked(table, 190 * 16).2,
                walked(table, 253 * 16).2,
            )
        };
        assert_eq!(rt; words(&table), (4, 3, 2, 1), "a new node goes to the head");
        assert_eq!(rt; table.map(page(127 * 16 + 1), to(5, 3)), Ok(()));
        assert_eq!(rt; words(&table), (4, 3, 2, 1), "a change of form moves none");
        assert_eq!(rt; table.unmap(page(190 * 16)).is_ok(), true);
        assert_eq!(rt; words(&table), (3, 2, 0, 1), "unlinked in the middle");
        assert_eq!(rt; table.unmap(page(253 * 16)).is_ok(), true);
        assert_eq!(rt; words(&table), (2, 1, 0, 0), "unlinked at the head");
        assert_eq!(rt; table.unmap(page(0)).is_ok(), true);
        assert_eq!(rt; words(&table), (0, 1, 0, 0), "unlinked at the end");
    }

    // The first page of the nth block of bucket 0.
    fn first_page(n: u64) -> u64 {
        let turn = n % 64;
        (n % 0x1000 * 64 + (64 - turn) % 64) * 16
    }

    #[test]
    fn a_long_chain_gives_nodes_and_rows_back(rt: HostRuntime) {
        let mut table = PageTable::new();
        for n in 0..100u64 {
            assert_eq!(rt; table.map(page(first_page(n)), to(0x2001, 3)), Ok(()));
        }
        assert_eq!(rt; table.census(), census(100, 100, 100));
        assert_eq!(rt; walked(&table, first_page(0)).2, 100, "the end");
        assert_eq!(rt;
            table.unmap(page(first_page(50))).is_ok(),
            true,
            "in the middle"
        );
        assert_eq!(rt; walked(&table, first_page(0)).2, 99);
        assert_eq!(rt; walked(&table, first_page(51)).2, 49, "before it");
        assert_eq!(rt;
            table.map(page(first_page(50)), to(0x2000, 3)),
            Ok(()),
            "linked again"
        );
        assert_eq!(rt;
            walked(&table, first_page(50)),
            (1, 0x0001_0000_0200_0003, 1)
        );
        assert_eq!(rt; table.census(), census(100, 99, 100));
        for n in 0..100u64 {
            assert_eq!(rt; table.unmap(page(first_page(n))).is_ok(), true);
        }
        assert_eq!(rt; table.census(), census(0, 0, 0));
    }

    #[test]
    fn calls_are_replayed(rt: HostRuntime) {
        let event = |call: TableCall| TableEvent {
            call,
            refused: false,
        };
        let mut events = [
            event(TableCall::Map(page(0x41), to(0x1001, 3))),
            event(TableCall::Map(page(0x41), to(0x1000, 3))),
            event(TableCall::Unmap(page(0x42))),
            event(TableCall::Protect(page(0x41), 1)),
            event(TableCall::Walk(page(0x42))),
            event(TableCall::Census),
        ];
        let table = replay_table(&mut events);
        assert_eq!(rt; table.lookup(page(0x41)), Some(to(0x1001, 1)));
        let refused: [bool; 6] = [false, true, true, false, true, false];
        for i in 0..6usize {
            assert_eq!(rt; events[i].refused, refused[i]);
        }
    }
}
