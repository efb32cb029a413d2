// The list of fills.
ghost use Rattle.std.specs.Prelude.{◌≡◌, ℕ, ◌<◌, ◌≤◌, true, None, Some, MatchOption, MatchResult, slice_index_or};
ghost use Rattle.arrayvec.specs.ArrayVec.{array_vec_len};
ghost use Rattle.words.specs.Points.{at};
ghost use Rattle.words.specs.Refusals.{First, Accepted};
ghost use Rattle.fills.specs.declared.underway.Waiting.{Waiting as AFill};
ghost use Rattle.fills.specs.Faults.{add_number, no_fill_number};
ghost use Rattle.fills.specs.Lists.{once};

use crate::fault::{AddFault, NoFill};
use crate::underway::{Underway, Waiting};
use arrayvec::ArrayVec;
use words::Page;

// At most 32, in the order in which they were begun; no page has two.
#[derive(Drop)]
pub struct Fills {
    waiting: ArrayVec<Waiting, 32>,
    ghost few: { array_vec_len waiting ≤ 32 },
    ghost once: { once waiting.items ≡ true },
}

impl Fills {
    ghost use Rattle.fills.specs.Fills.{fill_of, WaitingPages, add_refusals, remove_refusals};

    // No fill is under way.
    pub fn new() -> Fills
        ensures { (p : ℕ) → fill_of result p ≡ None }
    {
        Fills {
            waiting: ArrayVec::new(),
        }
    }

    // How many pages wait.
    pub fn count(&self) -> usize
        ensures { WaitingPages (fill_of self.now) result }
    {
        self.waiting.len()
    }

    // The fill of a page that waits.
    pub fn find(&self, page: Page) -> Option<Underway>
        ensures { result ≡ fill_of self.now page.number }
    {
        let place = self.place(page)?;
        Some(self.waiting[place].underway)
    }

    // Whether a fill of a page may be taken in.
    pub fn admits(&self, page: Page) -> Result<(), AddFault>
        ensures { MatchResult result
            (λ _. Accepted (add_refusals (fill_of self.now) page.number))
            (λ fault. First (add_refusals (fill_of self.now) page.number) (add_number fault)) }
    {
        if self.place(page).is_some() {
            return Err(AddFault::Waiting);
        }
        if self.waiting.is_full() {
            return Err(AddFault::TooMany);
        }
        Ok(())
    }

    // Takes in a fill of a page.
    pub fn add(&mut self, page: Page, underway: Underway) -> Result<(), AddFault>
        ensures { MatchResult result
            (λ _. Accepted (add_refusals (fill_of self.old) page.number)
            × (fill_of self.new ≡ at (fill_of self.old) page.number (Some underway)))
            (λ fault. First (add_refusals (fill_of self.old) page.number) (add_number fault) × (self.new ≡ self.old)) }
    {
        self.admits(page)?;
        self.waiting.push(Waiting { page, underway });
        Ok(())
    }

    // Takes out the fill of a page, where it is just this one.
    pub fn remove(&mut self, page: Page, underway: Underway) -> Result<(), NoFill>
        ensures { MatchResult result
            (λ _. (fill_of self.old page.number ≡ Some underway)
            × (fill_of self.new ≡ at (fill_of self.old) page.number None))
            (λ _. First (remove_refusals (fill_of self.old) page.number underway) no_fill_number × (self.new ≡ self.old)) }
    {
        let place = self.place(page).ok_or(NoFill)?;
        if self.waiting[place].underway != underway {
            return Err(NoFill);
        }
        self.waiting.remove(place);
        Ok(())
    }

    // The place of a page's fill.
    fn place(&self, page: Page) -> Option<usize>
        ensures { MatchOption result
            (fill_of self.now page.number ≡ None)
            (λ i. (i < array_vec_len self.now.waiting) × ((d : AFill) → (slice_index_or self.now.waiting.items i d).page.number ≡ page.number)) }
    {
        for i in 0..self.waiting.len() {
            if self.waiting[i].page == page {
                return Some(i);
            }
        }
        None
    }
}
