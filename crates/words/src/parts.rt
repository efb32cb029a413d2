// A translation of known parts.
ghost use Rattle.std.specs.Prelude.{◌≡◌, ◌^◌, ◌<◌};
ghost use Rattle.words.specs.Reading.{translation};

use crate::translation::Translation;

pub(crate) fn translation_of(frame: u32, attributes: u16) -> Translation
    requires frame { frame < 2 ^ 28 }
    requires attributes { attributes < 2 ^ 12 }
    ensures { result ≡ translation frame attributes }
{
    Translation { frame, attributes }
}
