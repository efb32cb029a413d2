// A planted difference is reported as that difference.
ghost use Rattle.std.specs.Prelude.{◌==◌, ◌||◌};
ghost use Rattle.reservation_compare.specs.ListModel.{list_model};

use crate::calls::{Call, FIRST_FRAME, FIRST_GROUP};
use crate::compare::compare;
use crate::fault::{Fault, Stop};
use crate::group_model::GroupModel;
use crate::list_model::ListModel;
use crate::model::{Choices, FrameModel};
use frames::FreeListAllocator;
use std::alloc::{AllocError, Global};

// The free list, but that a free of the first frame is accepted also while it is in.
#[derive(Drop)]
struct TakesTwice {
    list: ListModel,
}

impl FrameModel for TakesTwice {
    ghost meaning = { record {
      allowed = λ n. list_model.allowed n.list;
      out = λ n f. (f == 74560) || list_model.out n.list f;
      taken = λ n p f o. list_model.taken n.list p f o.list;
      given = λ n f o. list_model.given n.list f o.list;
    } };

    fn choices(&self, heap: Global, page: u64) -> Result<Choices, AllocError> {
        self.list.choices(heap, page)
    }

    fn take(&mut self, page: u64, frame: u32) {
        self.list.take(page, frame);
    }

    fn is_out(&self, frame: u32) -> bool {
        frame == FIRST_FRAME || self.list.is_out(frame)
    }

    fn give(&mut self, frame: u32) -> Result<(), AllocError> {
        self.list.give(frame)
    }
}

#[test]
fn a_free_list_is_no_reservation(rt: HostRuntime) {
    let heap = rt.alloc();
    let model = GroupModel::new(heap).expect(&rt, "memory");
    let outcome = compare(heap, FreeListAllocator::new(FIRST_GROUP), model);
    assert!(rt;
        matches!(
            outcome,
            Err(Stop {
                call: Call::Allocate(_),
                fault: Fault::Differs,
                ..
            })
        )
    );
}

#[test]
fn a_frame_comes_in_once(rt: HostRuntime) {
    let heap = rt.alloc();
    let list = ListModel::new(heap).expect(&rt, "memory");
    let outcome = compare(
        heap,
        FreeListAllocator::new(FIRST_GROUP),
        TakesTwice { list },
    );
    assert!(rt;
        matches!(
            outcome,
            Err(Stop {
                call: Call::Free(FIRST_FRAME),
                fault: Fault::Differs,
                ..
            })
        )
    );
}
