// The rows of a page table, and which of them are spare.
ghost use Rattle.std.specs.Prelude.{◌≡◌, ℕ, ◌+◌, ◌%◌, ◌<◌, [], ◌∷◌, ◌++◌, MatchOption};
ghost use Rattle.arrayvec.specs.ArrayVec.{array_vec_len};
ghost use Rattle.words.specs.Points.{at};
ghost use Rattle.words.specs.Blocks.{page_word};
ghost use Rattle.blocks.specs.Shapes.{Shapes};
ghost use Rattle.blocks.specs.Rows.{pages_of, row_pages, occurs};

use crate::row::Row;
use crate::shape::Shape;
use arrayvec::ArrayVec;
use chains::RowNumber;
use std::array;
use words::{FullWord, Offset, Translation};

// A row that is spare keeps the words that it had.
#[derive(Drop)]
pub(crate) struct Rows {
    pub(crate) rows: [Row; 128],
    pub(crate) spare: ArrayVec<RowNumber, 128>,
}

fn row_number(place: usize) -> RowNumber
    ensures { result.number ≡ place % 128 }
{
    RowNumber {
        number: (place % 128) as u8,
    }
}

impl Rows {
    // Every row is spare.
    pub(crate) fn new() -> Rows
        ensures each { (i : ℕ) → i < 128 → occurs i result.spare.items ≡ 1 }
        ensures count { array_vec_len result.spare ≡ 128 }
    {
        Rows {
            rows: [Row::of_word(None); 128],
            spare: ArrayVec::from(array::from_fn(row_number)),
        }
    }

    // How many are not spare.
    pub(crate) fn used(&self) -> u16
        ensures { result + array_vec_len self.now.spare ≡ 128 }
    {
        128 - self.spare.len() as u16
    }

    pub(crate) fn word(&self, row: RowNumber, offset: Offset) -> FullWord
        ensures { result.bits ≡ page_word (row_pages self.now.rows row.number offset.number) }
    {
        self.rows[usize::from(row.number)].word(offset)
    }

    pub(crate) fn shape(&self, row: RowNumber) -> Shape
        ensures { Shapes result (row_pages self.now.rows row.number) }
    {
        self.rows[usize::from(row.number)].shape()
    }

    // Writes one word of a row.
    pub(crate) fn set(&mut self, row: RowNumber, offset: Offset, page: Option<Translation>)
        ensures pages { row_pages self.new.rows ≡ at (row_pages self.old.rows) row.number (at (row_pages self.old.rows row.number) offset.number page) }
        ensures spare { self.new.spare ≡ self.old.spare }
    {
        self.rows[usize::from(row.number)].set(offset, page);
    }

    // Takes a spare row, and writes all its words; none where no row is spare.
    pub(crate) fn take(&mut self, row: Row) -> Option<RowNumber>
        ensures { MatchOption result
            ((self.old.spare.items ≡ []) × (self.new ≡ self.old))
            (λ r. (self.old.spare.items ≡ self.new.spare.items ++ r ∷ []) × (row_pages self.new.rows ≡ at (row_pages self.old.rows) r.number (pages_of row))) }
    {
        let number = self.spare.pop()?;
        self.rows[usize::from(number.number)] = row;
        Some(number)
    }

    // Makes a row spare.
    pub(crate) fn give(&mut self, row: RowNumber)
        requires { array_vec_len self.old.spare < 128 }
        ensures spare { self.new.spare.items ≡ self.old.spare.items ++ row ∷ [] }
        ensures rows { self.new.rows ≡ self.old.rows }
    {
        self.spare.push(row);
    }
}
