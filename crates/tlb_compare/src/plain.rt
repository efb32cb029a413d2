// Pairs and entries as plain numbers, whose words are read by the formats alone, with no function of the library.
ghost use Rattle.std.specs.Prelude.{◌≡◌, IfSome};
ghost use Rattle.words.specs.declared.form.Form.TheVariants.{Full};

use words::{Form, Translation};

// A page with what it is mapped to.
#[derive(Clone, Copy, PartialEq, Eq, Debug)]
pub struct PlainPair {
    pub page: u64,
    pub frame: u64,
    pub attributes: u64,
}

impl PlainPair {
    pub fn new(page: u64, translation: Translation) -> PlainPair
        ensures page { result.page ≡ page }
        ensures frame { result.frame ≡ translation.frame }
        ensures attributes { result.attributes ≡ translation.attributes }
    {
        PlainPair {
            page,
            frame: u64::from(translation.frame),
            attributes: u64::from(translation.attributes),
        }
    }
}

#[derive(Clone, Copy, PartialEq, Eq, Debug)]
pub struct PlainEntry {
    pub page: u64,
    pub form: Form,
    pub word: u64,
}

// The full-form entry of a pair.
impl From<PlainPair> for PlainEntry {
    ghost from_gives = { λ pair entry. (entry.page ≡ pair.page) × (entry.form ≡ Full) };

    fn from(pair: PlainPair) -> PlainEntry {
        PlainEntry {
            page: pair.page,
            form: Form::Full,
            word: 1 << 63 | pair.frame << 12 | pair.attributes,
        }
    }
}

impl PlainEntry {
    // What the entry says of a page.
    pub fn pair(self, page: u64) -> Option<PlainPair>
        ensures { IfSome result (λ pair. pair.page ≡ page) }
    {
        let (frame, attributes) = match self.form {
            Form::Compact => self.compact_parts(page)?,
            Form::Full => self.full_parts(page)?,
        };
        Some(PlainPair {
            page,
            frame,
            attributes,
        })
    }

    // The frame and the attributes that a compact word has for the page.
    fn compact_parts(self, page: u64) -> Option<(u64, u64)> {
        let offset = page % 16;
        if page / 16 != self.page / 16 || self.word >> 48 >> offset & 1 == 0 {
            return None;
        }
        Some((
            (self.word >> 16 & 0xff_ffff) << 4 | offset,
            self.word & 0xfff,
        ))
    }

    fn full_parts(self, page: u64) -> Option<(u64, u64)> {
        if page != self.page || self.word == 0 {
            return None;
        }
        Some((self.word >> 12 & 0xfff_ffff, self.word & 0xfff))
    }
}
