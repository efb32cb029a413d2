// Walks of a page table for `bench/walk.c` to time. What the sum of some rounds is stays free here: it is compared with that of a table in C.
#![tactic(auto)]

ghost use Rattle.std.specs.Prelude.{◌≡◌};

mod chain;

use chain::Chain;
use std::mem::size_of;
use table::PageTable;

// The most bytes that a page table may take.
const _: () = prove!(size_of::<PageTable>() <= 24_576);

// The bytes of a page table.
#[unsafe(no_mangle)]
pub extern "C" fn joistolive_bench_size() -> u64
    ensures { result ≡ 23328 }
{
    size_of::<PageTable>() as u64
}

// Makes a table with one chain of so many nodes (1 to 4), each with a compact word, walks to its pages in a random order, and sums up the
// words and how many nodes were looked at. Without rounds, it only makes the table, and the sum is 0.
#[unsafe(no_mangle)]
pub extern "C" fn joistolive_bench_walks(nodes: u64, rounds: u64) -> u64
    ensures { rounds ≡ 0 → result ≡ 0 }
{
    Chain::compact(nodes).walks(rounds)
}

// The same with a row on each node.
#[unsafe(no_mangle)]
pub extern "C" fn joistolive_bench_row_walks(nodes: u64, rounds: u64) -> u64
    ensures { rounds ≡ 0 → result ≡ 0 }
{
    Chain::mixed(nodes).walks(rounds)
}
