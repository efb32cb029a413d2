// What the examples share: the parts of a space, and calls by plain numbers, where a refusal is its number.
use frames::{FrameAllocator, FreeListAllocator};
use reservation::ReservationAllocator;
use space::{Fill, Mark, Space, Unsettled};
use std::process::Abort;
use tlb::{OnePageTlb, PartialSubblockTlb, Tlb, TwoLevelTlb};

// The page 0x41, of block 4 at offset 1.
pub(crate) const ADDRESS: u64 = 0x41034;

pub(crate) fn free_list() -> FreeListAllocator {
    FreeListAllocator::new(256)
}

pub(crate) fn reservation() -> ReservationAllocator {
    ReservationAllocator::new(256)
}

pub(crate) fn one_page_first() -> TwoLevelTlb<OnePageTlb, PartialSubblockTlb> {
    TwoLevelTlb::new(OnePageTlb::new(), PartialSubblockTlb::new())
}

pub(crate) fn partial_first() -> TwoLevelTlb<PartialSubblockTlb, OnePageTlb> {
    TwoLevelTlb::new(PartialSubblockTlb::new(), OnePageTlb::new())
}

// A fill, where one is sure to be begun.
pub(crate) fn begin<T: Tlb, F: FrameAllocator>(
    rt: &impl Abort,
    space: &mut Space<T, F>,
    address: u64,
) -> Fill {
    space.begin(address).expect(rt, "a fill is begun")
}

// Begins a fill and gives it up again; its frame.
pub(crate) fn begin_in_vain<T: Tlb, F: FrameAllocator>(
    space: &mut Space<T, F>,
    address: u64,
) -> Result<u32, u64> {
    match space.begin(address) {
        Ok(fill) => abandon(fill, space),
        Err(fault) => Err(u64::from(fault)),
    }
}

// Settles a fill; one that comes back is abandoned.
pub(crate) fn settle<T: Tlb, F: FrameAllocator>(
    fill: Fill,
    space: &mut Space<T, F>,
    attributes: u16,
) -> Result<u32, u64> {
    match fill.settle(space, attributes) {
        Ok(frame) => Ok(frame),
        Err(Unsettled { fill, fault }) => {
            let _ = fill.abandon(space);
            Err(u64::from(fault))
        }
    }
}

pub(crate) fn abandon<T: Tlb, F: FrameAllocator>(
    fill: Fill,
    space: &mut Space<T, F>,
) -> Result<u32, u64> {
    fill.abandon(space).map_err(|fault| u64::from(fault))
}

// Begins a fill and settles it; its frame.
pub(crate) fn map<T: Tlb, F: FrameAllocator>(
    space: &mut Space<T, F>,
    address: u64,
    attributes: u16,
) -> Result<u32, u64> {
    match space.begin(address) {
        Ok(fill) => settle(fill, space, attributes),
        Err(fault) => Err(u64::from(fault)),
    }
}

// The frame and the attributes that the page had.
pub(crate) fn release<T: Tlb, F: FrameAllocator>(
    space: &mut Space<T, F>,
    address: u64,
) -> Result<(u32, u16), u64> {
    match space.release(address) {
        Ok(translation) => Ok((translation.frame, translation.attributes)),
        Err(fault) => Err(u64::from(fault)),
    }
}

pub(crate) fn protect<T: Tlb, F: FrameAllocator>(
    space: &mut Space<T, F>,
    address: u64,
    attributes: u16,
) -> Result<u16, u64> {
    space
        .protect(address, attributes)
        .map_err(|fault| u64::from(fault))
}

pub(crate) fn touch<T: Tlb, F: FrameAllocator>(
    space: &mut Space<T, F>,
    address: u64,
    access: u8,
) -> Result<(u64, Mark), u64> {
    match space.touch(address, access) {
        Ok(touched) => Ok((touched.physical, touched.mark)),
        Err(fault) => Err(u64::from(fault)),
    }
}

// The form and the bits of the word, and how many nodes were looked at.
pub(crate) fn walk<T: Tlb, F: FrameAllocator>(
    space: &Space<T, F>,
    address: u64,
) -> Result<(u64, u64, u16), u64> {
    match space.walk(address) {
        Ok(walked) => Ok((
            u64::from(walked.word.form()),
            walked.word.bits(),
            walked.looked,
        )),
        Err(fault) => Err(u64::from(fault)),
    }
}

// How many nodes are linked, rows in use, pages mapped, fills under way.
pub(crate) fn census<T: Tlb, F: FrameAllocator>(space: &Space<T, F>) -> (u16, u16, u16, usize) {
    let census = space.census();
    (census.nodes, census.rows, census.pages, census.fills)
}
