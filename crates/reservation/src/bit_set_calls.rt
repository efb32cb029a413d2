// What is in a set of small numbers, what goes in and out, and which comes first.
ghost use Rattle.std.specs.Prelude.{◌≡◌, ℕ, ◌*◌, ◌<◌, ◌≤◌, false, IfSome, MatchOption, nat_lt};
ghost use Rattle.words.specs.Layout.{bit};
ghost use Rattle.words.specs.Points.{at};
ghost use Rattle.reservation.specs.Sets.{has, FirstFrom, NoneFrom};

use crate::bit_set::BitSet;

// The word with one bit set or cleared. Like `has` below, apart from the sets of offsets, whose words have 16 bits: Rust has no one shift for
// both widths.
fn with_bit(word: u64, index: usize, on: bool) -> u64
    requires { index < 64 }
    ensures { bit result ≡ at (bit word) index on }
{
    let mask = 1u64 << index;
    if on { word | mask } else { word & !mask }
}

impl<const N: usize> BitSet<N> {
    pub(crate) fn empty() -> BitSet<N>
        ensures { (k : ℕ) → has result k ≡ false }
    {
        BitSet { words: [0; N] }
    }

    pub(crate) fn full() -> BitSet<N>
        ensures { (k : ℕ) → has result k ≡ nat_lt k (64 * N) }
    {
        BitSet {
            words: [u64::MAX; N],
        }
    }

    pub(crate) fn has(&self, number: usize) -> bool
        requires { number < 64 * N }
        ensures { result ≡ has self.now number }
    {
        (self.words[number / 64] >> (number % 64)) % 2 == 1
    }

    // Takes the number in, or out.
    pub(crate) fn put(&mut self, number: usize, on: bool)
        requires { number < 64 * N }
        ensures { has self.new ≡ at (has self.old) number on }
    {
        self.words[number / 64] = with_bit(self.words[number / 64], number % 64, on);
    }

    // The lowest number of the set from the given one on.
    pub(crate) fn first_from(&self, from: usize) -> Option<usize>
        requires { N ≤ 1024 }
        ensures first { MatchOption result (NoneFrom (has self.now) from) (λ k. FirstFrom (has self.now) from k) }
        ensures within { IfSome result (λ k. k < 64 * N) }
    {
        // `rest` is what is left of the word at `i`: its bit 0 says whether the number `begin` is in.
        let mut i = from / 64;
        let mut begin = from;
        let mut rest = *self.words.get(i)? >> (from % 64);
        while rest == 0 {
            i += 1;
            begin = 64 * i;
            rest = *self.words.get(i)?;
        }
        Some(begin + rest.trailing_zeros() as usize)
    }
}
