// The form that the pages of a block can have.
ghost use Rattle.std.specs.Prelude.{◌≡◌, ℕ, Some, None, Option, MatchOption};
ghost use Rattle.words.specs.Points.{at};
ghost use Rattle.blocks.specs.Shapes.{Shapes, word_pages};

use words::{CompactWord, Offset, Translation};

// No page; pages that are all in one compact word; or pages that no compact word can have.
#[derive(Clone, Copy, PartialEq, Eq, Debug)]
pub(crate) enum Shape {
    Empty,
    Compact(CompactWord),
    Mixed,
}

impl Shape {
    // The shape of the pages of a word; of no page where there is none.
    pub(crate) fn of_word(word: Option<CompactWord>) -> Shape
        ensures { Shapes result (word_pages word) }
    {
        match word {
            Some(word) => Shape::Compact(word),
            None => Shape::Empty,
        }
    }

    // With one page more.
    pub(crate) fn with(self, offset: Offset, translation: Translation) -> Shape
        ensures { (f : ℕ → Option Translation) → f offset.number ≡ None → Shapes self f → Shapes result (at f offset.number (Some translation)) }
    {
        match self {
            Shape::Empty => match CompactWord::of_page(offset, translation) {
                Some(word) => Shape::Compact(word),
                None => Shape::Mixed,
            },
            Shape::Compact(word) => {
                let grown = word.with(offset);
                if grown.read(offset) == Some(translation) {
                    Shape::Compact(grown)
                } else {
                    Shape::Mixed
                }
            }
            Shape::Mixed => Shape::Mixed,
        }
    }
}

// The shape of the pages of a word when one of them is mapped to a translation, or to none.
pub(crate) fn changed(word: Option<CompactWord>, offset: Offset, to: Option<Translation>) -> Shape
    ensures { Shapes result (at (word_pages word) offset.number to) }
{
    let rest = match word {
        Some(word) => Shape::of_word(word.without(offset)),
        None => Shape::Empty,
    };
    match to {
        Some(translation) => rest.with(offset, translation),
        None => rest,
    }
}
