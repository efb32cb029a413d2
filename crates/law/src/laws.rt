// Facts about the law, each the contract of a function that only carries it.
ghost use Rattle.law.specs.Determined.{OneRightAnswer};
ghost use Rattle.law.specs.Examples.{WorkedExamples};
ghost use Rattle.law.specs.Runs.{FramesApart, Stays};

use frames::FrameAllocator;
use tlb::Tlb;

// Right events keep what holds of a space: the TLB has no pair that the map has not, and each frame of the map is out, at one place.
pub fn what_holds_stays<T: Tlb, F: FrameAllocator>()
    ensures { Stays T.Tlb.meaning F.FrameAllocator.meaning }
{}

// Whatever calls a space was given, no frame is at two places, and what the word reader finds in a walk's word is what the page was
// given last: the frame of its last accepted settle, with the attributes of its last accepted settle or protect.
pub fn frames_are_apart<T: Tlb, F: FrameAllocator>()
    ensures { FramesApart T.Tlb.meaning F.FrameAllocator.meaning }
{}

// The law leaves nothing open but the frame that begin takes and how many nodes a walk looked at: not in the answer of a call, nor in the
// map that it leaves, nor in the frames that are out then. What it leaves in a TLB is for the TLB's own meaning to say.
pub fn one_right_answer<T: Tlb, F: FrameAllocator>()
    ensures { OneRightAnswer T.Tlb.meaning F.FrameAllocator.meaning }
{}

// The worked values of the page map and of the formats, together.
pub fn worked_examples()
    ensures { WorkedExamples }
{}
