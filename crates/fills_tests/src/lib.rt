// Examples of the list of fills.
#![tactic(auto)]

#[cfg(test)]
mod tests {
    use fills::{AddFault, Fills, NoFill, Underway};
    use words::Page;

    fn page(number: u16) -> Page {
        Page::of_address(u64::from(number) * 4096)
    }

    fn on(frame: u32) -> Underway {
        Underway { frame }
    }

    #[test]
    fn after_32_fills_there_is_room_for_no_other(rt: HostRuntime) {
        let mut fills = Fills::new();
        for number in 0..32u16 {
            assert_eq!(rt;
                fills.add(page(number), on(0x1000 + u32::from(number))),
                Ok(())
            );
        }
        assert_eq!(rt; fills.count(), 32);
        assert_eq!(rt; fills.add(page(32), on(0x1020)), Err(AddFault::TooMany));
        assert_eq!(rt;
            fills.add(page(7), on(0x1020)),
            Err(AddFault::Waiting),
            "before the other"
        );
        assert_eq!(rt; fills.remove(page(7), on(0x1007)), Ok(()));
        assert_eq!(rt; fills.add(page(32), on(0x1020)), Ok(()));
        assert_eq!(rt; fills.find(page(32)), Some(on(0x1020)));
        assert_eq!(rt; fills.find(page(7)), None);
    }

    #[test]
    fn a_fill_is_known_by_its_page_and_its_frame(rt: HostRuntime) {
        let mut fills = Fills::new();
        assert_eq!(rt; fills.add(page(1), on(0x1001)), Ok(()));
        assert_eq!(rt; fills.add(page(2), on(0x1002)), Ok(()));
        assert_eq!(rt;
            fills.remove(page(1), on(0x1002)),
            Err(NoFill),
            "another frame"
        );
        assert_eq!(rt;
            fills.remove(page(3), on(0x1001)),
            Err(NoFill),
            "another page"
        );
        assert_eq!(rt; fills.remove(page(1), on(0x1001)), Ok(()));
        assert_eq!(rt; fills.remove(page(1), on(0x1001)), Err(NoFill), "spent");
        assert_eq!(rt; fills.find(page(2)), Some(on(0x1002)));
        assert_eq!(rt; fills.count(), 1);
    }
}
