// Whole numbers in decimal digits.
ghost use Rattle.whole.specs.Number.{Tells};
ghost use Rattle.reading.specs.Numbers.{AllDigits, Sized, IsSize, IsSigned, WithSign, IsNumber};

// Why a word is no number of 64 bits: it is a whole number too large for that, or it is none.
#[derive(Clone, Copy, Debug, PartialEq, Eq)]
pub enum NoNumber {
    TooLarge,
    None,
}

fn all_digits(word: &[u8]) -> bool
    ensures { Tells (AllDigits word.now) result }
{
    word.iter().all(u8::is_ascii_digit)
}

// The value of digits.
fn value(digits: &[u8]) -> Result<u64, NoNumber>
    requires { Sized digits.now }
    ensures { IsSize digits.now result }
{
    let mut n: u64 = 0;
    for b in digits {
        let digit = u64::from(*b - b'0');
        if n > (u64::MAX - digit) / 10 {
            return Err(NoNumber::TooLarge);
        }
        n = n * 10 + digit;
    }
    Ok(n)
}

// One digit at least, and nothing but digits.
pub fn size_in(word: &[u8]) -> Result<u64, NoNumber>
    ensures { IsSize word.now result }
{
    if word.is_empty() || !all_digits(word) {
        return Err(NoNumber::None);
    }
    value(word)
}

// A size with its sign, if 64 bits hold it.
fn signed(negative: bool, n: u64) -> Result<i64, NoNumber>
    ensures { IsSigned negative n result }
{
    let x = if negative {
        0i64.checked_sub_unsigned(n)
    } else {
        0i64.checked_add_unsigned(n)
    };
    x.ok_or(NoNumber::TooLarge)
}

fn with_sign(negative: bool, digits: &[u8]) -> Result<i64, NoNumber>
    ensures { WithSign negative digits.now result }
{
    signed(negative, size_in(digits)?)
}

// A minus sign, if there is one, stands right before the digits.
pub fn number_in(word: &[u8]) -> Result<i64, NoNumber>
    ensures { IsNumber word.now result }
{
    match word {
        [b'-', digits @ ..] => with_sign(true, digits),
        _ => with_sign(false, word),
    }
}
