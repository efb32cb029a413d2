// A compact word: up to sixteen pages of one block, properly placed in one frame block, with equal attributes.
ghost use Rattle.std.specs.Prelude.{◌≡◌, ℕ, ◌^◌, ◌<◌, ◌≤◌, true, false, not, ◌&&◌, ◌||◌, MatchOption};
ghost use Rattle.words.specs.Layout.{block_of, bit, compact_word, are_parts, offsets_in, frame_block_in, attributes_in, is_compact, Offsets, plus, minus};
ghost use Rattle.words.specs.Made.{Made};
ghost use Rattle.words.specs.Reading.{is_placed, said};
ghost use Rattle.words.specs.declared.form.Form.TheVariants as shape;

use crate::address::Offset;
use crate::offset_set::OffsetSet;
use crate::parts::translation_of;
use crate::translation::Translation;

#[derive(Clone, Copy, PartialEq, Eq, Debug)]
pub struct CompactWord {
    pub bits: u64,
    ghost sound: { is_compact bits ≡ true },
}

impl CompactWord {
    // The word with these bits; none where they are no compact word. Named as `Word::from_bits`, which needs a form beside the bits and so
    // cannot be `TryFrom`.
    pub fn from_bits(bits: u64) -> Option<CompactWord>
        ensures { Made result (is_compact bits) (λ w. w.bits ≡ bits) }
    {
        if bits / 0x1000 % 0x10 != 0
            || bits / 0x100_0000_0000 % 0x100 != 0
            || bits < 0x1_0000_0000_0000
        {
            return None;
        }
        Some(CompactWord { bits })
    }

    // The word of some offsets; none where there is none, or a part is too large.
    pub fn from_parts(offsets: OffsetSet, frame_block: u32, attributes: u16) -> Option<CompactWord>
        ensures { Made result (are_parts offsets.bits frame_block attributes) (λ w. w.bits ≡ compact_word offsets.bits frame_block attributes) }
    {
        if offsets.is_empty() || frame_block >= 0x100_0000 || attributes >= 0x1000 {
            return None;
        }
        Some(CompactWord {
            bits: u64::from(offsets.bits) * 0x1_0000_0000_0000
                + u64::from(frame_block) * 0x1_0000
                + u64::from(attributes),
        })
    }

    // The word of a single page; none where it is not properly placed.
    pub fn of_page(offset: Offset, translation: Translation) -> Option<CompactWord>
        ensures { Made result (is_placed offset.number translation) (λ w. w.bits ≡ compact_word (2 ^ offset.number) (block_of translation.frame) translation.attributes) }
    {
        if !translation.properly_placed(offset) {
            return None;
        }
        CompactWord::from_parts(
            OffsetSet::from(offset),
            translation.frame / 16,
            translation.attributes,
        )
    }

    // The offsets whose pages are in the word.
    pub fn offsets(self) -> OffsetSet
        ensures { result.bits ≡ offsets_in self.bits }
    {
        OffsetSet {
            bits: (self.bits / 0x1_0000_0000_0000) as u16,
        }
    }

    pub fn frame_block(self) -> u32
        ensures { result ≡ frame_block_in self.bits }
    {
        (self.bits / 0x1_0000 % 0x100_0000) as u32
    }

    pub fn attributes(self) -> u16
        ensures { result ≡ attributes_in self.bits }
    {
        (self.bits % 0x1000) as u16
    }

    fn has(self, offset: Offset) -> bool
        ensures { result ≡ bit (offsets_in self.bits) offset.number }
    {
        self.offsets().has(offset)
    }

    // What the page at an offset is mapped to.
    pub fn read(self, offset: Offset) -> Option<Translation>
        ensures { result ≡ said shape.Compact self.bits offset.number }
    {
        if !self.has(offset) {
            return None;
        }
        let frame = self.frame_block() * 16 + u32::from(offset.number);
        Some(translation_of(frame, self.attributes()))
    }

    // The word with other offsets.
    fn with_offsets(self, offsets: OffsetSet) -> CompactWord
        requires { 0 < offsets.bits }
        ensures { Offsets self.bits (bit offsets.bits) result.bits }
    {
        CompactWord {
            bits: u64::from(offsets.bits) * 0x1_0000_0000_0000 + self.bits % 0x1_0000_0000_0000,
        }
    }

    // The word with the page at an offset in it.
    pub fn with(self, offset: Offset) -> CompactWord
        ensures { Offsets self.bits (plus self.bits (2 ^ offset.number)) result.bits }
    {
        self.with_offsets(self.offsets().with(OffsetSet::from(offset)))
    }

    // The word without the page at an offset; none where no other page is in it.
    pub fn without(self, offset: Offset) -> Option<CompactWord>
        ensures { MatchOption result ((k : ℕ) → minus self.bits (2 ^ offset.number) k ≡ false) (λ w. Offsets self.bits (minus self.bits (2 ^ offset.number)) w.bits) }
    {
        self.without_all(OffsetSet::from(offset))
    }

    // The word without the pages at some offsets; none where no other page is in it.
    pub fn without_all(self, offsets: OffsetSet) -> Option<CompactWord>
        ensures { MatchOption result ((k : ℕ) → minus self.bits offsets.bits k ≡ false) (λ w. Offsets self.bits (minus self.bits offsets.bits) w.bits) }
    {
        let left = self.offsets().without(offsets);
        if left.is_empty() {
            return None;
        }
        Some(self.with_offsets(left))
    }
}
