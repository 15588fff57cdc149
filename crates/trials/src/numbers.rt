// The arguments of a call: whole numbers, with blanks, brackets, commas and small words between them.
ghost use Rattle.std.specs.Prelude.{◌≤◌, length, IfOk};

use reading::{NoNumber, Words, number_in};

// What a word is worth. A kind stands for how many coordinates it has; the other words only join numbers.
fn worth_of(word: &[u8]) -> Result<Option<i64>, NoNumber> {
    match word {
        b"C3" => Ok(Some(8)),
        b"C5" => Ok(Some(12)),
        b"by" | b"in" | b"from" | b"over" | b"of" | b"to" | b"on" => Ok(None),
        _ => Ok(Some(number_in(word)?)),
    }
}

// Writes the numbers that are left of a text, as far as there is room; how many they are, or the column of the first word that belongs to no call.
pub(crate) fn arguments(words: Words, out: &mut [i64]) -> Result<usize, usize>
    ensures { IfOk result (λ count. count ≤ length out.new) }
{
    // Counted by hand: words that only join numbers take no room, so a number's place is not its word's. The loop is not make_sheet's take_numbers:
    // that knows no such words, and tells a number too many or too few from what is none; one function for both would take three closures.
    let mut count: usize = 0;
    for word in words {
        match worth_of(word.bytes) {
            Ok(Some(x)) if count < out.len() => {
                out[count] = x;
                count += 1;
            }
            Ok(None) => (),
            _ => return Err(word.place + 1),
        }
    }
    Ok(count)
}
