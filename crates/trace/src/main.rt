// Plays a trace from standard input on an address space, and writes a line for each of its records.
#![tactic(auto)]

use player::run;
use reservation::ReservationAllocator;
use std::io;
use tlb::{OnePageTlb, PartialSubblockTlb, TwoLevelTlb};

// The group of sixteen frames that the stock starts in.
const FIRST_GROUP: u16 = 256;

fn main(rt: HostRuntime) -> io::Result<()> {
    let tlb = TwoLevelTlb::new(OnePageTlb::new(), PartialSubblockTlb::new());
    run(
        rt.alloc(),
        tlb,
        ReservationAllocator::new(FIRST_GROUP),
        &mut rt.stdin(),
        &mut rt.stdout(),
    )
}
