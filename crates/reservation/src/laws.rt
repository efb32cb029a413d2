// Facts about the rules, each the contract of a function that only carries it.
ghost use Rattle.reservation.specs.Laws.{KeptAtOffset, OpenGroupGivesOffset, Determined};

// A frame of the page's own group has the page's offset.
pub fn kept_at_offset()
    ensures { KeptAtOffset }
{}

// While a group is open, a page whose block has none gets one.
pub fn open_group_gives_offset()
    ensures { OpenGroupGivesOffset }
{}

// The rules leave no answer and no state open but for what they leave free.
pub fn determined()
    ensures { Determined }
{}
