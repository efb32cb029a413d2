// The calls of an address space as plain values, and what they answer.
ghost use Rattle.std.specs.Prelude.{◌≡◌};
ghost use Rattle.law.specs.Calls.{call_of};

use crate::fault::{AbandonFault, BeginFault, ReleaseFault, SettleFault, TouchFault};
use fills::Underway;
use table::{NotMapped, ProtectFault, Walked};
use words::{Page, Translation};

// Whether the TLB had a translation of the touched page, or the page table was walked.
#[derive(Clone, Copy, PartialEq, Eq, Debug)]
pub enum Mark {
    Hit,
    Missed,
}

// The physical address of an access, and where its translation came from.
#[derive(Clone, Copy, PartialEq, Eq, Debug)]
pub struct Touched {
    pub physical: u64,
    pub mark: Mark,
}

// How many nodes are linked, rows in use, pages mapped, fills under way.
#[derive(Clone, Copy, PartialEq, Eq, Debug)]
pub struct Census {
    pub nodes: u16,
    pub rows: u16,
    pub pages: u16,
    pub fills: usize,
}

// A call with its arguments: addresses, and the page of a fill with what is kept of it, whether or not there is such a fill.
#[derive(Clone, Copy, PartialEq, Eq, Debug)]
pub enum Call {
    Begin(u64),
    Settle(Page, Underway, u16),
    Abandon(Page, Underway),
    Release(u64),
    Protect(u64, u16),
    Touch(u64, u8),
    Walk(u64),
    Census,
}

// A call with its arguments and its answer.
#[derive(Clone, Copy, PartialEq, Eq, Debug)]
pub enum Event {
    // the frame of the fill
    Begin(u64, Result<u32, BeginFault>),
    // the frame
    Settle(Page, Underway, u16, Result<u32, SettleFault>),
    // the frame
    Abandon(Page, Underway, Result<u32, AbandonFault>),
    Release(u64, Result<Translation, ReleaseFault>),
    // the former attributes
    Protect(u64, u16, Result<u16, ProtectFault>),
    Touch(u64, u8, Result<Touched, TouchFault>),
    Walk(u64, Result<Walked, NotMapped>),
    Census(Census),
}

impl Event {
    // The call without its answer.
    pub fn call(self) -> Call
        ensures { result ≡ call_of self }
    {
        match self {
            Event::Begin(address, _) => Call::Begin(address),
            Event::Settle(page, underway, attributes, _) => {
                Call::Settle(page, underway, attributes)
            }
            Event::Abandon(page, underway, _) => Call::Abandon(page, underway),
            Event::Release(address, _) => Call::Release(address),
            Event::Protect(address, attributes, _) => Call::Protect(address, attributes),
            Event::Touch(address, access, _) => Call::Touch(address, access),
            Event::Walk(address, _) => Call::Walk(address),
            Event::Census(_) => Call::Census,
        }
    }
}
