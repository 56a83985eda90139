// Leaves: one slot, one mark, one byte.
ghost use Rattle.std.specs.Prelude.{◌≡◌, ◌^◌, ◌<◌, ◌≤◌, leb, length, get_or};
ghost use Rattle.vocabulary.specs.Bits.{has};
ghost use Rattle.dispatcher.specs.Looks.{part_of};

// The byte at a place, 0 past the last.
pub(crate) fn byte_in(bytes: &[u8], at: usize) -> u8
    ensures { result ≡ get_or bytes.now at 0 }
{
    bytes.get(at).copied().unwrap_or(0)
}

// m bytes from a place on, none where they are not all there.
pub(crate) fn part_of(bytes: &[u8], at: usize, m: usize) -> &[u8]
    ensures { result.now ≡ part_of bytes.now at m }
{
    if bytes.len() < at || bytes.len() - at < m {
        return &bytes[..0];
    }
    &bytes[at..at + m]
}

// Bit i of x.
pub(crate) fn is_marked(x: u64, i: usize) -> bool
    ensures { result ≡ has x i }
{
    i < 64 && (x >> i) % 2 == 1
}

// The word has a bit at or above n.
pub(crate) fn has_bit_from(x: u64, n: usize) -> bool
    ensures { result ≡ leb (2 ^ n) x }
{
    n < 64 && (x >> n) != 0
}
