// A stock's frames by their places.
ghost use Rattle.std.specs.Prelude.{◌≡◌, ◌+◌, ◌*◌, ◌≤◌, MatchResult};
ghost use Rattle.frames.specs.Stock.{first_frame, in_stock};
ghost use Rattle.words.specs.Made.{Made};

use crate::stock::{Place, Stock};
use words::BadNumber;

impl Stock {
    // The frames from 16 * group on.
    pub fn of_group(group: u16) -> Stock
        ensures { first_frame result ≡ 16 * group }
    {
        Stock {
            first: u32::from(group) * 16,
        }
    }

    // The place of a frame; none where the frame is not of the stock.
    pub fn place(self, frame: u32) -> Option<Place>
        ensures { Made result (in_stock self frame) (λ place. first_frame self + place.number ≡ frame) }
    {
        Place::try_from(frame.checked_sub(self.first)?).ok()
    }

    // The frame at a place.
    pub fn frame(self, place: Place) -> u32
        ensures { result ≡ first_frame self + place.number }
    {
        self.first + u32::from(place.number)
    }
}

// There is no place of a number of 4,096 or more. Its own `try_from`, as pages and offsets have: their widths differ.
impl TryFrom<u32> for Place {
    type Error = BadNumber;

    ghost try_from_gives = { λ n r. MatchResult r (λ place. place.number ≡ n) (λ _. 4096 ≤ n) };

    fn try_from(number: u32) -> Result<Place, BadNumber> {
        if number >= 4096 {
            return Err(BadNumber);
        }
        Ok(Place {
            number: number as u16,
        })
    }
}
