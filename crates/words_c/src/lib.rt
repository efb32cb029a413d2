// The word reader for C: a static library with one export, thin over the crate `words`.
#![tactic(auto)]

ghost use Rattle.std.specs.Prelude.{◌≡◌};
ghost use Rattle.words.specs.Laws.{Tells};
ghost use Rattle.words.specs.Reading.{reading, answer_number};

// Any three numbers in, one number out.
#[unsafe(no_mangle)]
pub extern "C" fn joistolive_read_word(form: u64, word: u64, offset: u64) -> u64
    ensures answer { result ≡ answer_number (reading form word offset) }
    ensures map { Tells form word offset result }
{
    words::joistolive_read_word(form, word, offset)
}
