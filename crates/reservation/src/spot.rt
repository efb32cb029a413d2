// Where a frame is in its group.
ghost use Rattle.std.specs.Prelude.{◌≡◌, ◌+◌, ◌*◌};

use frames::Place;
use words::Offset;

// The frame at an offset of a group.
#[derive(Clone, Copy, PartialEq, Eq, Debug)]
pub struct Spot {
    pub group: u8,
    pub offset: Offset,
}

// Sixteen places of a stock are a group.
impl From<Place> for Spot {
    ghost from_gives = { λ place spot. place.number ≡ 16 * spot.group + spot.offset.number };

    fn from(place: Place) -> Spot {
        Spot {
            group: (place.number / 16) as u8,
            offset: Offset {
                number: (place.number % 16) as u8,
            },
        }
    }
}

impl From<Spot> for Place {
    ghost from_gives = { λ spot place. place.number ≡ 16 * spot.group + spot.offset.number };

    fn from(spot: Spot) -> Place {
        Place {
            number: 16 * u16::from(spot.group) + u16::from(spot.offset.number),
        }
    }
}
