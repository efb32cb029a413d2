// Carries the buffer of a survey logger's channel through an address space: brings its pages in, writes to them, has the miss handler's word
// read, makes a page read-only, and gives the pages back. Prints each step.
#![tactic(auto)]

mod fault;

use fault::{FetchFault, Unreadable};
use reservation::ReservationAllocator;
use space::{Fill, Mark, Space, Unsettled};
use tlb::{OnePageTlb, PartialSubblockTlb, TwoLevelTlb};
use words::{Access, Page, read_word};

type LoggerSpace = Space<TwoLevelTlb<OnePageTlb, PartialSubblockTlb>, ReservationAllocator>;

// The pages of the buffer, by their addresses. With the page behind them they are of block 4.
const BUFFER: [u64; 4] = [0x41000, 0x42000, 0x43000, 0x44000];
// The page behind the buffer; the disk cannot give its contents.
const BEHIND: u64 = 0x45000;

const READ_ONLY: u16 = 1;

const READ_WRITE: u16 = 3;

fn main(rt: HostRuntime) -> anyhow::Result<()> {
    let tlb = TwoLevelTlb::new(OnePageTlb::new(), PartialSubblockTlb::new());
    // the frames from 16 * 256 on, 0x1000
    let mut space = Space::new(tlb, ReservationAllocator::new(256));
    tell_census(&rt, &space)?;
    bring_in(&rt, &mut space)?;
    tell_census(&rt, &space)?;
    write_to(&rt, &mut space)?;
    tell_word(&rt, &space, 0x41000)?;
    close(&rt, &mut space, 0x43000)?;
    tell_word(&rt, &space, 0x43000)?;
    tell_census(&rt, &space)?;
    give_back(&rt, &mut space)?;
    tell_census(&rt, &space)
}

// Fetches the buffer, and the page behind it, which does not come.
fn bring_in(rt: &impl Print, space: &mut LoggerSpace) -> anyhow::Result<()> {
    for address in BUFFER {
        fetch_and_tell(rt, space, address)?;
    }
    fetch_and_tell(rt, space, BEHIND)
}

// One walk serves the four pages: the partial-subblock TLB takes in the word of their block.
fn write_to(rt: &impl Print, space: &mut LoggerSpace) -> anyhow::Result<()> {
    touch(rt, space, 0x41008, Access::Write)?;
    touch(rt, space, 0x41008, Access::Write)?;
    touch(rt, space, 0x44ffc, Access::Write)
}

// Makes a page read-only.
fn close(rt: &impl Print, space: &mut LoggerSpace, address: u64) -> anyhow::Result<()> {
    let former = space.protect(address, READ_ONLY)?;
    println!(rt; "protect {address:#x}: attributes {READ_ONLY}, before {former}")?;
    touch(rt, space, address, Access::Write)?;
    touch(rt, space, address, Access::Read)
}

fn give_back(rt: &impl Print, space: &mut LoggerSpace) -> anyhow::Result<()> {
    for address in BUFFER {
        let translation = space.release(address)?;
        println!(rt;
            "release {address:#x}: frame {:#x}, attributes {}",
            translation.frame, translation.attributes
        )?;
    }
    touch(rt, space, 0x41008, Access::Write)
}

// A page that was begun on a frame, how many fills were under way then, what the disk gave, and the frame that the fill ended with.
#[derive(Clone, Copy)]
struct Fetched {
    page: Page,
    begun: u32,
    waiting: usize,
    read: Result<(), Unreadable>,
    ended: u32,
}

// Begins a fill, and ends it by what the disk gives: a fill is not let go, so nothing between may leave by `?`.
fn fetch(space: &mut LoggerSpace, address: u64) -> Result<Fetched, FetchFault> {
    let fill = space.begin(address)?;
    let page = fill.page();
    let begun = fill.frame();
    let waiting = space.census().fills;
    let read = read_from_disk(page);
    let ended = match read {
        Ok(()) => settle(space, fill)?,
        Err(Unreadable) => fill.abandon(space)?,
    };
    Ok(Fetched {
        page,
        begun,
        waiting,
        read,
        ended,
    })
}

// The buffer starts out empty, so there is nothing to be read for its pages.
fn read_from_disk(page: Page) -> Result<(), Unreadable> {
    if page == Page::of_address(BEHIND) {
        return Err(Unreadable);
    }
    Ok(())
}

// Maps the page of a fill to its frame. A fill that cannot be settled is abandoned.
fn settle(space: &mut LoggerSpace, fill: Fill) -> Result<u32, FetchFault> {
    match fill.settle(space, READ_WRITE) {
        Ok(frame) => Ok(frame),
        Err(Unsettled { fill, fault }) => {
            fill.abandon(space)?;
            Err(FetchFault::Settle(fault))
        }
    }
}

fn fetch_and_tell(rt: &impl Print, space: &mut LoggerSpace, address: u64) -> anyhow::Result<()> {
    let fetched = fetch(space, address)?;
    let page = fetched.page.number;
    println!(rt;
        "begin {address:#x}: frame {:#x}, fills under way {}",
        fetched.begun, fetched.waiting
    )?;
    match fetched.read {
        Ok(()) => println!(rt;
            "settle page {page:#x}: frame {:#x}, attributes {READ_WRITE}",
            fetched.ended
        )?,
        Err(fault) => println!(rt;
            "abandon page {page:#x}: frame {:#x}, {fault}",
            fetched.ended
        )?,
    }
    Ok(())
}

fn touch(
    rt: &impl Print,
    space: &mut LoggerSpace,
    address: u64,
    access: Access,
) -> anyhow::Result<()> {
    let to = match access {
        Access::Read => "read",
        Access::Write => "write",
        Access::Execute => "execute",
    };
    match space.touch(address, u8::from(access)) {
        Ok(touched) => {
            let mark = match touched.mark {
                Mark::Hit => "hit",
                Mark::Missed => "missed",
            };
            println!(rt;
                "touch {address:#x} to {to}: {:#x}, {mark}",
                touched.physical
            )?;
        }
        Err(fault) => println!(rt;
            "touch {address:#x} to {to}: refused {}: {fault}",
            u64::from(fault)
        )?,
    }
    Ok(())
}

// Walks to a page and reads its word, as the miss handler does.
fn tell_word(rt: &impl Print, space: &LoggerSpace, address: u64) -> anyhow::Result<()> {
    let walked = space.walk(address)?;
    let form = u64::from(walked.word.form());
    let bits = walked.word.bits();
    println!(rt;
        "walk {address:#x}: form {form}, word {bits:#018x}, nodes looked at {}",
        walked.looked
    )?;
    let offset = u64::from(Page::of_address(address).offset().number);
    let translation = read_word(form, bits, offset)?;
    println!(rt;
        "read {form} {bits:#018x} {offset}: frame {:#x}, attributes {}",
        translation.frame, translation.attributes
    )?;
    Ok(())
}

fn tell_census(rt: &impl Print, space: &LoggerSpace) -> anyhow::Result<()> {
    let census = space.census();
    println!(rt;
        "census: nodes {}, rows {}, pages {}, fills {}",
        census.nodes, census.rows, census.pages, census.fills
    )?;
    Ok(())
}
