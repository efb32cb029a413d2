// The calls that are made: in turn on few blocks and on more than there are groups, while most frames are in and while none is left.
ghost use Rattle.std.specs.Prelude.{◌≡◌, ◌<◌, ◌^◌, sum_by};
ghost use Rattle.reservation_compare.specs.declared.calls.Call.TheVariants.{Allocate, Free};

use rand_core::Rng;
use std::fmt;

// The group of sixteen frames that the stock starts in.
pub const FIRST_GROUP: u16 = 0x1234;

pub const FIRST_FRAME: u32 = 16 * FIRST_GROUP as u32;

#[derive(Clone, Copy)]
pub enum Call {
    Allocate(u64),
    Free(u32),
}

impl fmt::Display for Call {
    fn fmt<W: fmt::Write>(&self, f: &mut fmt::Formatter<W>) -> fmt::Result {
        match self {
            Call::Allocate(page) => write!(f, "allocate for page {page}"),
            Call::Free(frame) => write!(f, "free of frame {frame}"),
        }
    }
}

// Calls that are drawn alike.
#[derive(Clone, Copy)]
pub struct Phase {
    pub calls: u32,
    // how many of sixteen calls are frees
    frees: u64,
    // of how many blocks the pages are, and how far these are apart
    blocks: u16,
    apart: u16,
    // of how many frames, those that went out last, most that come in are
    last: u16,
    ghost some_blocks: { 0 < blocks },
    ghost some_last: { 0 < last },
}

// How the calls are drawn, one stretch after the other: 17,000 calls in all.
pub fn phases() -> [Phase; 9]
    ensures { sum_by (λ p. p.calls) result ≡ 17000 }
{
    [
        // groups that break and open again
        stretch(2_000, 13, 2, 1, 8),
        // some groups that stay, beside hundreds of reservations
        stretch(150, 0, 2_000, 1, 64),
        stretch(3_500, 12, 3_000, 1, 64),
        // pages that come again and again
        stretch(1_000, 4, 24, 64, 64),
        // blocks of one bucket, until no group is open
        stretch(2_500, 2, 2_000, 4_096, 500),
        // until no frame is left
        stretch(2_500, 1, 5_000, 1, 500),
        stretch(1_500, 8, 300, 1, 500),
        // until most are in again
        stretch(2_850, 15, 40, 64, 8_000),
        stretch(1_000, 4, 200, 1, 500),
    ]
}

fn stretch(calls: u32, frees: u64, blocks: u16, apart: u16, last: u16) -> Phase
    requires blocks { 0 < blocks }
    requires last { 0 < last }
    ensures { result.calls ≡ calls }
{
    Phase {
        calls,
        frees,
        blocks,
        apart,
        last,
    }
}

impl Call {
    // The next call, where these frames went out. A page is of one of 2^32 blocks; which call it is stays free.
    pub fn draw<R: Rng>(random: &mut R, phase: Phase, given: &[u32]) -> Call
        ensures { elim result [ Allocate page ↦ page < 2 ^ 36 | Free frame ↦ Unit {0} ] }
    {
        if below(random, 16) < phase.frees {
            Call::Free(draw_frame(random, phase, given))
        } else {
            Call::Allocate(draw_page(random, phase))
        }
    }
}

fn draw_page<R: Rng>(random: &mut R, phase: Phase) -> u64
    ensures { result < 2 ^ 36 }
{
    let block = below(random, u64::from(phase.blocks)) * u64::from(phase.apart);
    16 * block + below(random, 16)
}

// Any number at all, a frame of the stock or near it, or one that went out lately.
fn draw_frame<R: Rng>(random: &mut R, phase: Phase, given: &[u32]) -> u32 {
    match below(random, 16) {
        0 => random.next_u32(),
        1 => FIRST_FRAME - 32 + below(random, 4_096 + 64) as u32,
        _ => {
            let back = 1 + below(random, u64::from(phase.last)) as usize;
            let index = given.len().saturating_sub(back);
            given.get(index).copied().unwrap_or(FIRST_FRAME)
        }
    }
}

fn below<R: Rng>(random: &mut R, limit: u64) -> u64
    requires { 0 < limit }
    ensures { result < limit }
{
    random.next_u64() % limit
}
