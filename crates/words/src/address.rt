// The parts of a 64-bit address: its page, and the page's block and offset. Types of their own: one type with the width and the bound as
// parameters would share a single `try_from`, and each other method would still stand in an `impl` of its own instance.
ghost use Rattle.std.specs.Prelude.{◌≡◌, ◌^◌, ◌<◌, ◌≤◌, MatchResult};
ghost use Rattle.words.specs.Layout.{page_of, block_of, offset_of, bucket_of, page_at};

use crate::fault::BadNumber;

// A page of 4,096 bytes, by its number.
#[derive(Clone, Copy, PartialEq, Eq, Debug)]
pub struct Page {
    pub number: u64,
    ghost within: { number < 2 ^ 52 },
}

// Sixteen consecutive pages, by their common number: page div 16.
#[derive(Clone, Copy, PartialEq, Eq, Debug)]
pub struct Block {
    pub number: u64,
    ghost within: { number < 2 ^ 48 },
}

// Which of the sixteen pages of a block: page mod 16.
#[derive(Clone, Copy, PartialEq, Eq, Debug)]
pub struct Offset {
    pub number: u8,
    ghost within: { number < 16 },
}

impl Page {
    pub fn of_address(address: u64) -> Page
        ensures { result.number ≡ page_of address }
    {
        Page {
            number: address / 4096,
        }
    }

    pub fn block(self) -> Block
        ensures { result.number ≡ block_of self.number }
    {
        Block {
            number: self.number / 16,
        }
    }

    pub fn offset(self) -> Offset
        ensures { result.number ≡ offset_of self.number }
    {
        Offset {
            number: (self.number % 16) as u8,
        }
    }
}

// There is no page of a number of 2^52 or more.
impl TryFrom<u64> for Page {
    type Error = BadNumber;

    ghost try_from_gives = { λ n r. MatchResult r (λ p. p.number ≡ n) (λ _. 2 ^ 52 ≤ n) };

    fn try_from(number: u64) -> Result<Page, BadNumber> {
        if number >= 0x10_0000_0000_0000 {
            return Err(BadNumber);
        }
        Ok(Page { number })
    }
}

impl Block {
    // Which of the 64 chains of a page table the block belongs to.
    pub fn bucket(self) -> usize
        ensures { result ≡ bucket_of self.number }
    {
        ((self.number + self.number / 64) % 64) as usize
    }

    pub fn page(self, offset: Offset) -> Page
        ensures { result.number ≡ page_at self.number offset.number }
    {
        Page {
            number: self.number * 16 + u64::from(offset.number),
        }
    }
}

impl Offset {
    // The number with just the offset's bit.
    pub fn bit(self) -> u16
        ensures { result ≡ 2 ^ self.number }
    {
        1 << self.number
    }
}

// There is no offset of a number of 16 or more.
impl TryFrom<u64> for Offset {
    type Error = BadNumber;

    ghost try_from_gives = { λ n r. MatchResult r (λ o. o.number ≡ n) (λ _. 16 ≤ n) };

    fn try_from(number: u64) -> Result<Offset, BadNumber> {
        if number >= 16 {
            return Err(BadNumber);
        }
        Ok(Offset {
            number: number as u8,
        })
    }
}
