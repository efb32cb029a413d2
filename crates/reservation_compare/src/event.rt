// What comes of a call.
use std::fmt;

#[derive(Clone, Copy, PartialEq, Eq, Debug)]
pub enum Event {
    // Of the free list: the head went out.
    Head,
    // Of reservation: a frame went out by one of the five steps.
    Kept,
    Reserved,
    Spare,
    Broke,
    BrokeOldest,
    Freed,
    AllOut,
    NotOut,
}

// What came of a call, and how many frames the model let the allocator choose among.
#[derive(Clone, Copy, PartialEq, Eq, Debug)]
pub struct Outcome {
    pub event: Event,
    pub allowed: usize,
}

pub const EVENTS: [Event; 9] = [
    Event::Head,
    Event::Kept,
    Event::Reserved,
    Event::Spare,
    Event::Broke,
    Event::BrokeOldest,
    Event::Freed,
    Event::AllOut,
    Event::NotOut,
];

impl fmt::Display for Event {
    fn fmt<W: fmt::Write>(&self, f: &mut fmt::Formatter<W>) -> fmt::Result {
        f.write_str(match self {
            Event::Head => "from the head",
            Event::Kept => "kept",
            Event::Reserved => "reserved",
            Event::Spare => "spare",
            Event::Broke => "broke a group",
            Event::BrokeOldest => "broke the oldest group",
            Event::Freed => "freed",
            Event::AllOut => "refused with 4",
            Event::NotOut => "refused with 12",
        })
    }
}
