// Numbers in a sheet's bytes, the lowest byte first. `as`: each number that is cast fits, as its contract shows; `try_from` would have an error that
// never comes.
ghost use Rattle.std.specs.Prelude.{◌≡◌, ◌+◌, ◌≤◌, ◌<◌, length};
ghost use Rattle.whole.specs.Number.{Within};
ghost use Rattle.curve.specs.Sizes.{coordinate_reach};
ghost use Rattle.record.specs.Numbers.{half_at, mission_in, word_at, signed_of, bits as bits_of, word_bytes, written};

pub(crate) fn half_at(bytes: &[u8], at: usize) -> u16
    requires { at + 2 ≤ length bytes.now }
    ensures { result ≡ half_at bytes.now at }
{
    u16::from_le_bytes(bytes[at..at + 2].try_into().unwrap())
}

pub fn word_at(bytes: &[u8], at: usize) -> u64
    requires { at + 4 ≤ length bytes.now }
    ensures { (result ≡ word_at bytes.now at) × (result < 4294967296) }
{
    u64::from(u32::from_le_bytes(bytes[at..at + 4].try_into().unwrap()))
}

// The number that a header holds.
pub fn mission_in(header: &[u8]) -> u16
    requires { 6 ≤ length header.now }
    ensures { result ≡ mission_in header.now }
{
    half_at(header, 4)
}

// A word as a signed number. A word has 64 bits here, as the public `word_at` and `put_word` have it.
pub(crate) fn signed(w: u64) -> i64
    requires { w < 4294967296 }
    ensures { result ≡ signed_of w }
{
    i64::from((w as u32).cast_signed())
}

// The word of a number in range.
pub(crate) fn bits(x: i64) -> u64
    requires { Within coordinate_reach x }
    ensures { result ≡ bits_of x }
{
    u64::from((x as i32).cast_unsigned())
}

pub fn put_word(bytes: &mut [u8], at: usize, w: u64)
    requires { at + 4 ≤ length bytes.old }
    ensures { bytes.new ≡ written bytes.old at (word_bytes w) }
{
    bytes[at..at + 4].copy_from_slice(&w.to_le_bytes()[..4]);
}
