// A group of sixteen frames.
use crate::spot::Spot;
use words::{Block, OffsetSet};

// What a group is used for.
#[derive(Clone, Copy, PartialEq, Eq, Debug)]
pub enum Usage {
    // Nothing: all its frames are in.
    Open,
    // The pages of one block.
    Reserved(Block),
    // Any page.
    Broken,
}

// `out` has the offsets of the frames that are out.
#[derive(Clone, Copy, PartialEq, Eq, Debug)]
pub struct Group {
    pub usage: Usage,
    pub out: OffsetSet,
}

// How a frame is found for a page, by the steps in their order. A choice names its step, since the rules and the laws speak of it.
#[derive(Clone, Copy, PartialEq, Eq, Debug)]
pub enum Step {
    // The frame at the page's offset in the group reserved for its block.
    Kept,
    // The frame at the page's offset in the lowest open group, which is reserved for its block.
    Reserves,
    // A frame that is in, of a broken group.
    Spare,
    // A frame of an open group, which becomes broken.
    Breaks,
    // A frame that is in, of the group reserved longest ago that has one; it becomes broken.
    BreaksOldest,
}

// A frame that a step takes.
#[derive(Clone, Copy, PartialEq, Eq, Debug)]
pub struct Choice {
    pub step: Step,
    pub spot: Spot,
}
