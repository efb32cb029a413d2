// A full word: one page on any frame, or none.
ghost use Rattle.std.specs.Prelude.{◌≡◌, true};
ghost use Rattle.words.specs.Layout.{full_word, is_full};
ghost use Rattle.words.specs.Made.{Made};
ghost use Rattle.words.specs.Reading.{said};
ghost use Rattle.words.specs.declared.form.Form.TheVariants as shape;

use crate::parts::translation_of;
use crate::translation::Translation;

#[derive(Clone, Copy, PartialEq, Eq, Debug)]
pub struct FullWord {
    pub bits: u64,
    ghost sound: { is_full bits ≡ true },
}

impl FullWord {
    // The word of a page that is not mapped.
    pub fn empty() -> FullWord
        ensures { result.bits ≡ 0 }
    {
        FullWord { bits: 0 }
    }

    // The word with these bits; none where they are no full word. No `TryFrom`, as for a compact word.
    pub fn from_bits(bits: u64) -> Option<FullWord>
        ensures { Made result (is_full bits) (λ w. w.bits ≡ bits) }
    {
        if bits != 0 && bits / 0x100_0000_0000 != 0x80_0000 {
            return None;
        }
        Some(FullWord { bits })
    }

    // The word of a page that is mapped.
    pub fn of_page(translation: Translation) -> FullWord
        ensures { result.bits ≡ full_word translation.frame translation.attributes }
    {
        FullWord {
            bits: 0x8000_0000_0000_0000
                + u64::from(translation.frame) * 0x1000
                + u64::from(translation.attributes),
        }
    }

    // What the page is mapped to.
    pub fn read(self) -> Option<Translation>
        ensures { result ≡ said shape.Full self.bits 0 }
    {
        if self.bits == 0 {
            return None;
        }
        let frame = (self.bits / 0x1000 % 0x1000_0000) as u32;
        let attributes = (self.bits % 0x1000) as u16;
        Some(translation_of(frame, attributes))
    }
}
