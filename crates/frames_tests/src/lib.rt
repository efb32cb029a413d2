// Examples of the frame allocators.
#![tactic(auto)]

ghost use Rattle.frames.specs.FreeList.{free_list};
ghost use Rattle.std.proofs.Common.{rules};

#[cfg(test)]
mod tests {
    use frames::{AllocateFault, FrameAllocator, FreeFault, FreeListAllocator};
    use words::Page;

    fn page() -> Page {
        Page::of_address(0x41034)
    }

    #[test]
    fn a_new_list_rises_from_its_lowest_frame(rt: HostRuntime) {
        assert_eq!(rt; FreeListAllocator::new(0).allocate(page()), Ok(0));
        assert_eq!(rt;
            FreeListAllocator::new(65_535).allocate(page()),
            Ok(1_048_560)
        );
        let mut frames = FreeListAllocator::new(256);
        assert_eq!(rt; frames.allocate(page()), Ok(4096));
        assert_eq!(rt; frames.allocate(page()), Ok(4097));
        assert_eq!(rt; frames.allocate(page()), Ok(4098));
    }

    #[test]
    fn what_came_in_last_goes_out_first(rt: HostRuntime) {
        let mut frames = FreeListAllocator::new(256);
        for expected in 4096..8192u32 {
            assert_eq!(rt; frames.allocate(page()), Ok(expected));
        }
        assert_eq!(rt; frames.allocate(page()), Err(AllocateFault::AllOut));
        assert_eq!(rt; frames.free(5000), Ok(()));
        assert_eq!(rt; frames.free(4100), Ok(()));
        assert_eq!(rt; frames.free(4100), Err(FreeFault::NotOut), "freed twice");
        assert_eq!(rt;
            frames.free(4095),
            Err(FreeFault::NotOut),
            "below the stock"
        );
        assert_eq!(rt; frames.free(8192), Err(FreeFault::NotOut), "past the stock");
        assert_eq!(rt; frames.allocate(page()), Ok(4100));
        assert_eq!(rt; frames.allocate(page()), Ok(5000));
        assert_eq!(rt; frames.allocate(page()), Err(AllocateFault::AllOut));
    }

    // A free list that counts what it refuses: lawful, though a refused call leaves another value.
    #[derive(Drop)]
    struct Counting {
        list: FreeListAllocator,
        refusals: u32,
    }

    impl FrameAllocator for Counting {
        ghost meaning = { record {
          stock = λ s. free_list.stock s.list;
          out = λ s. free_list.out s.list;
          allocated = λ s p r u. Unit {0};
          freed = λ s f r u. Unit {0};
        } };

        ghost within = { Prim.search rules };

        ghost small = { Prim.search rules };

        fn allocate(&mut self, page: Page) -> Result<u32, AllocateFault> {
            let answer = self.list.allocate(page);
            if answer.is_err() {
                self.refusals = self.refusals.saturating_add(1);
            }
            answer
        }

        fn free(&mut self, frame: u32) -> Result<(), FreeFault> {
            let answer = self.list.free(frame);
            if answer.is_err() {
                self.refusals = self.refusals.saturating_add(1);
            }
            answer
        }
    }

    #[test]
    fn an_allocator_may_count_what_it_refuses(rt: HostRuntime) {
        let mut frames = Counting {
            list: FreeListAllocator::new(0),
            refusals: 0,
        };
        assert_eq!(rt; frames.free(7), Err(FreeFault::NotOut));
        assert_eq!(rt; frames.allocate(page()), Ok(0));
        assert_eq!(rt; frames.free(0), Ok(()));
        assert_eq!(rt; frames.free(0), Err(FreeFault::NotOut));
        assert_eq!(rt; frames.refusals, 2);
    }

    #[test]
    fn refusals_have_numbers(rt: HostRuntime) {
        assert_eq!(rt; u64::from(AllocateFault::AllOut), 4);
        assert_eq!(rt; u64::from(FreeFault::NotOut), 12);
    }
}
