// A set of small numbers, one bit each.
ghost use Rattle.std.specs.Prelude.{◌≡◌, length};

// Some of the numbers below 64 * N.
#[derive(Clone, Copy)]
pub struct BitSet<const N: usize> {
    pub(crate) words: [u64; N],
    ghost wide: { length words ≡ N },
}
