// A row: sixteen full words, one for each page of a block.
ghost use Rattle.std.specs.Prelude.{◌≡◌, ℕ, ◌<◌};
ghost use Rattle.words.specs.Points.{at};
ghost use Rattle.words.specs.Blocks.{page_word};
ghost use Rattle.blocks.specs.Shapes.{Shapes, word_pages};

use crate::shape::Shape;
use words::{CompactWord, FullWord, Offset, Translation};

#[derive(Clone, Copy)]
pub(crate) struct Row {
    words: [FullWord; 16],
}

// What a compact word says of a page; nothing where there is no word.
fn page_in(word: Option<CompactWord>, offset: Offset) -> Option<Translation>
    ensures { result ≡ word_pages word offset.number }
{
    word?.read(offset)
}

// The full word of a page, or the empty one where it is not mapped.
fn word_of(page: Option<Translation>) -> FullWord
    ensures { result.bits ≡ page_word page }
{
    match page {
        Some(translation) => FullWord::of_page(translation),
        None => FullWord::empty(),
    }
}

impl Row {
    ghost use Rattle.blocks.specs.Rows.{pages_of};

    // The pages of a compact word; no page where there is none.
    pub(crate) fn of_word(word: Option<CompactWord>) -> Row
        ensures { (k : ℕ) → k < 16 → pages_of result k ≡ word_pages word k }
    {
        let mut row = Row {
            words: [FullWord::empty(); 16],
        };
        for i in 0..16u8 {
            let offset = Offset { number: i };
            row.set(offset, page_in(word, offset));
        }
        row
    }

    pub(crate) fn word(&self, offset: Offset) -> FullWord
        ensures { result.bits ≡ page_word (pages_of self.now offset.number) }
    {
        self.words[usize::from(offset.number)]
    }

    pub(crate) fn set(&mut self, offset: Offset, page: Option<Translation>)
        ensures { pages_of self.new ≡ at (pages_of self.old) offset.number page }
    {
        self.words[usize::from(offset.number)] = word_of(page);
    }

    pub(crate) fn shape(&self) -> Shape
        ensures { Shapes result (pages_of self.now) }
    {
        let mut shape = Shape::Empty;
        for i in 0..16u8 {
            if let Some(translation) = self.words[usize::from(i)].read() {
                shape = shape.with(Offset { number: i }, translation);
            }
        }
        shape
    }
}
