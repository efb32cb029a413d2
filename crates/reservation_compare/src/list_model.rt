// The free list as the queue of the frames that are in.
ghost use Rattle.std.specs.Prelude.{◌≡◌, ◌+◌, ℕ, ◌<◌, IfOk, length, slice_index_or};
ghost use Rattle.reservation_compare.specs.ListModel.{list_model};

use crate::calls::FIRST_FRAME;
use crate::event::Event;
use crate::model::{Choices, FrameModel};
use std::alloc::{AllocError, Global};
use std::collections::VecDeque;

#[derive(Drop)]
pub(crate) struct ListModel {
    free: VecDeque<u32>,
}

impl ListModel {
    // All 4,096 frames from the first on, in their order.
    pub fn new(heap: Global) -> Result<ListModel, AllocError>
        ensures { IfOk result (λ m. (length m.free.items ≡ 4096) × ((i d : ℕ) → i < 4096 → slice_index_or m.free.items i d ≡ 74560 + i)) }
    {
        let mut free = VecDeque::new(heap);
        for frame in FIRST_FRAME..FIRST_FRAME + 4096 {
            free.push_back(frame)?;
        }
        Ok(ListModel { free })
    }
}

impl FrameModel for ListModel {
    ghost meaning = { list_model };

    fn choices(&self, heap: Global, _page: u64) -> Result<Choices, AllocError> {
        let mut frames = Vec::new(heap);
        let Some(head) = self.free.front() else {
            return Ok(Choices {
                event: Event::AllOut,
                frames,
            });
        };
        frames.push(*head)?;
        Ok(Choices {
            event: Event::Head,
            frames,
        })
    }

    fn take(&mut self, _page: u64, _frame: u32) {
        self.free.pop_front();
    }

    fn is_out(&self, frame: u32) -> bool {
        let stock = FIRST_FRAME..FIRST_FRAME + 4096;
        stock.contains(&frame) && !self.free.contains(&frame)
    }

    fn give(&mut self, frame: u32) -> Result<(), AllocError> {
        self.free.push_front(frame)?;
        Ok(())
    }
}
