// A page table whose one chain has some nodes, and the pages to walk to.
ghost use Rattle.std.specs.Prelude.{◌≡◌};

use table::PageTable;
use words::{Page, Translation};

// The order of the walks is the upper bits of a linear congruential generator. Its constants are short operands, which take little time.
const MULTIPLIER: u64 = 1_566_083_941;

const INCREMENT: u64 = 1;

#[derive(Drop)]
pub(crate) struct Chain {
    table: PageTable,
    pages: [Page; 256],
}

// The page with a number in the chain: block 63 * n is of bucket 63, for n from 1 to 64.
fn page(number: usize) -> Page {
    let block = number as u64 / 16 % 64 * 63 + 63;
    Page::of_address((block * 16 + number as u64 % 16) * 4096)
}

// Every page of the chain several times, for an index of eight bits.
fn pages(nodes: u64) -> [Page; 256] {
    let count = nodes.clamp(1, 4) as usize * 16;
    let mut pages = [Page::of_address(0); 256];
    for i in 0..256 {
        pages[i] = page(i % count);
    }
    pages
}

impl Chain {
    // All pages of the blocks properly placed, in compact words.
    pub(crate) fn compact(nodes: u64) -> Chain {
        Chain::of(nodes, 0)
    }

    // No page properly placed, so that each block has a row.
    pub(crate) fn mixed(nodes: u64) -> Chain {
        Chain::of(nodes, 5)
    }

    // Each page is mapped to the frame that is so many after that of its own number; a page that is mapped already stays so.
    fn of(nodes: u64, shift: u8) -> Chain {
        let mut table = PageTable::new();
        let pages = pages(nodes);
        for page in pages {
            let frame = (page.number % 0x100_0000) as u32 + u32::from(shift);
            if let Some(translation) = Translation::new(frame, 7) {
                let _ = table.map(page, translation);
            }
        }
        Chain { table, pages }
    }

    // The sum of the walks: nothing without rounds.
    pub(crate) fn walks(&self, rounds: u64) -> u64
        ensures { rounds ≡ 0 → result ≡ 0 }
    {
        let mut state = 1u64;
        let mut sum = 0u64;
        for _ in 0..rounds {
            state = state.wrapping_mul(MULTIPLIER).wrapping_add(INCREMENT);
            let page = self.pages[(state >> 56) as usize];
            if let Ok(walked) = self.table.walk(page) {
                sum = sum
                    .wrapping_add(walked.word.bits())
                    .wrapping_add(u64::from(walked.looked));
            }
        }
        sum
    }
}
