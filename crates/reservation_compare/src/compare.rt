// The same calls on an allocator and on a model of it.
ghost use Rattle.std.specs.Prelude.{◌≡◌, MatchResult, length};
ghost use Rattle.reservation_compare.specs.declared.calls.Call.TheVariants.{Allocate, Free};
ghost use Rattle.reservation_compare.specs.Agreement.{Compared, Noted, Stopped, AllAgreed, FirstDiffers};

use crate::calls::{Call, phases};
use crate::event::{Event, Outcome};
use crate::fault::{Fault, Stop};
use crate::model::FrameModel;
use frames::FrameAllocator;
use rand_core::SeedableRng;
use rand_xoshiro::Xoshiro256PlusPlus;
use std::alloc::Global;
use words::Page;

// What came of each of the 17,000 calls, where the allocator and the model agree on each; else the first call on which they do not.
pub fn compare<A: FrameAllocator + Drop, M: FrameModel + Drop>(
    heap: Global,
    allocator: A,
    model: M,
) -> Result<Vec<Outcome>, Stop>
    ensures { MatchResult result
        (λ outcomes. (length outcomes.items ≡ 17000) × AllAgreed A.meaning M.meaning allocator model outcomes.items)
        (λ stop. FirstDiffers A.meaning M.meaning allocator model stop) }
{
    let mut random = Xoshiro256PlusPlus::seed_from_u64(1);
    let mut both = Both {
        allocator,
        model,
        given: Vec::new(heap),
    };
    let mut outcomes = Vec::new(heap);
    for phase in phases() {
        for _ in 0..phase.calls {
            let call = Call::draw(&mut random, phase, &both.given);
            both.note(heap, call, &mut outcomes)?;
        }
    }
    Ok(outcomes)
}

// An allocator with its model, and the frames that went out, in turn.
#[derive(Drop)]
struct Both<A, M> {
    allocator: A,
    model: M,
    given: Vec<u32>,
}

impl<A: FrameAllocator, M: FrameModel> Both<A, M> {
    // Makes the call, and notes what came of it after the others.
    fn note(&mut self, heap: Global, call: Call, outcomes: &mut Vec<Outcome>) -> Result<(), Stop>
        ensures { MatchResult result
            (λ _. Noted A.meaning M.meaning self.old.allocator self.old.model call outcomes.old.items self.new.allocator self.new.model outcomes.new.items)
            (λ stop. Stopped A.meaning M.meaning self.old.allocator self.old.model call outcomes.old.items stop) }
    {
        let before = outcomes.len();
        let outcome = match self.make(heap, call) {
            Ok(outcome) => outcome,
            Err(fault) => {
                return Err(Stop {
                    before,
                    call,
                    fault,
                });
            }
        };
        if outcomes.push(outcome).is_err() {
            return Err(Stop {
                before,
                call,
                fault: Fault::NoMemory,
            });
        }
        Ok(())
    }

    fn make(&mut self, heap: Global, call: Call) -> Result<Outcome, Fault>
        ensures { Compared A.meaning M.meaning self.old.allocator self.old.model call result self.new.allocator self.new.model }
    {
        match call {
            Call::Allocate(page) => self.allocate(heap, page),
            Call::Free(frame) => self.free(frame),
        }
    }

    fn allocate(&mut self, heap: Global, page: u64) -> Result<Outcome, Fault>
        ensures { Compared A.meaning M.meaning self.old.allocator self.old.model (Allocate page) result self.new.allocator self.new.model }
    {
        let choices = self.model.choices(heap, page)?;
        if let Ok(frame) = self.allocator.allocate(Page::try_from(page)?) {
            if !choices.frames.contains(&frame) {
                return Err(Fault::Differs);
            }
            self.model.take(page, frame);
            self.given.push(frame)?;
        } else if !choices.frames.is_empty() {
            return Err(Fault::Differs);
        }
        Ok(Outcome {
            event: choices.event,
            allowed: choices.frames.len(),
        })
    }

    fn free(&mut self, frame: u32) -> Result<Outcome, Fault>
        ensures { Compared A.meaning M.meaning self.old.allocator self.old.model (Free frame) result self.new.allocator self.new.model }
    {
        let freed = self.allocator.free(frame).is_ok();
        if freed != self.model.is_out(frame) {
            return Err(Fault::Differs);
        }
        if !freed {
            return Ok(Outcome {
                event: Event::NotOut,
                allowed: 0,
            });
        }
        self.model.give(frame)?;
        Ok(Outcome {
            event: Event::Freed,
            allowed: 0,
        })
    }
}
