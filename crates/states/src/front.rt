// The first bytes of what stands behind a state's records, eight to a word.
ghost use Rattle.std.specs.Prelude.{◌≡◌, [], ◌∷◌, ◌++◌, ◌+◌, ◌*◌, ◌≤◌, length, take, drop};
ghost use Rattle.record.specs.Numbers.{word_at, written};
ghost use Rattle.record.specs.Kinds.{longest_record};
ghost use Rattle.states.specs.Words.{packed, unpacked};
ghost use Rattle.states.specs.Steps.{joined_to, padded};

use area::put;
use record::LONGEST_RECORD;

fn long_at(bytes: &[u8], at: usize) -> u64
    requires { at + 8 ≤ length bytes.now }
    ensures { result ≡ word_at bytes.now at + 4294967296 * word_at bytes.now (at + 4) }
{
    u64::from_le_bytes(bytes[at..at + 8].try_into().unwrap())
}

fn put_long(bytes: &mut [u8], at: usize, w: u64)
    requires { at + 8 ≤ length bytes.old }
    ensures { bytes.new ≡ written bytes.old at (unpacked (w ∷ [])) }
{
    bytes[at..at + 8].copy_from_slice(&w.to_le_bytes());
}

pub(crate) fn bytes_of(words: &[u64; 7]) -> [u8; 56]
    ensures { result ≡ unpacked words.now }
{
    let mut bytes = [0; 56];
    for (i, w) in words.iter().enumerate() {
        put_long(&mut bytes, 8 * i, *w);
    }
    bytes
}

// The first `held` bytes of words and as much of a part as the longest record has room for, with zeros behind them.
pub(crate) fn joined(words: &[u64; 7], held: usize, part: &[u8]) -> [u8; 56]
    requires { (words.now ≡ packed (take held (unpacked words.now))) × (held ≤ longest_record) }
    ensures { result ≡ padded (joined_to (take held (unpacked words.now)) held part.now) }
{
    // As long as it can be, with how many bytes are held beside it: memory is fixed.
    let mut front = bytes_of(words);
    put(&mut front[held..LONGEST_RECORD], part);
    front
}

// Word by word: of an array by `from_fn` no proof closed that its items are the seven of `packed`.
pub(crate) fn words_of(bytes: &[u8; 56]) -> [u64; 7]
    ensures { result ≡ packed bytes.now }
{
    [
        long_at(bytes, 0),
        long_at(bytes, 8),
        long_at(bytes, 16),
        long_at(bytes, 24),
        long_at(bytes, 32),
        long_at(bytes, 40),
        long_at(bytes, 48),
    ]
}

// The words of the first bytes of a list, however many it has.
pub(crate) fn front_words(bytes: &[u8]) -> [u64; 7]
    ensures { result ≡ packed (take longest_record bytes.now) }
{
    let mut front = [0; 56];
    put(&mut front[..LONGEST_RECORD], bytes);
    words_of(&front)
}
