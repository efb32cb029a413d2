// The word reader: what a form, a word and an offset, as plain numbers, say of a page.
ghost use Rattle.std.specs.Prelude.{◌≡◌};
ghost use Rattle.words.specs.Laws.{Tells};
ghost use Rattle.words.specs.Reading.{reading, answer_number};

use crate::address::Offset;
use crate::fault::ReadFault;
use crate::form::Form;
use crate::translation::Translation;
use crate::word::Word;

// A refusal is this number plus the fault's.
const REFUSED: u64 = 0x8000_0000_0000_0000;

// Three plain numbers, as the exported reader takes them.
pub fn read_word(form: u64, word: u64, offset: u64) -> Result<Translation, ReadFault>
    ensures { result ≡ reading form word offset }
{
    let form = Form::try_from(form)?;
    let word = Word::from_bits(form, word).ok_or(ReadFault::BadWord)?;
    let offset = Offset::try_from(offset)?;
    word.read(offset).ok_or(ReadFault::NotMapped)
}

// frame * 4,096 + attributes, or 2^63 + the number of the fault. A `From` between two types of std is not ours to write.
fn encoded(answer: Result<Translation, ReadFault>) -> u64
    ensures { result ≡ answer_number answer }
{
    match answer {
        Ok(translation) => u64::from(translation.frame) * 4096 + u64::from(translation.attributes),
        Err(fault) => REFUSED + u64::from(fault),
    }
}

// The reader as the miss handler calls it from C, through the crate `words_c`: any three numbers in, one number out.
pub fn joistolive_read_word(form: u64, word: u64, offset: u64) -> u64
    ensures answer { result ≡ answer_number (reading form word offset) }
    ensures map { Tells form word offset result }
{
    encoded(read_word(form, word, offset))
}
