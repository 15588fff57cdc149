// What a line of the text says.
ghost use Rattle.std.specs.Prelude.{◌≡◌, ◌≤◌, length};
ghost use Rattle.make_sheet.specs.Sayings.{word_of, Named, NumbersIn, AmountIn, SaysBehind, CurveBehind, WordsSay, LineSays, why_of};

use curve::Curve;
use hand::curve_in;
use reading::{NoNumber, Sought, Word, Words, find, number_in};

// The lines that there are, by their first words.
#[derive(Clone, Copy, Debug, PartialEq, Eq)]
pub enum Form {
    Mission,
    Cubic,
    Quintic,
    Erased,
}

// What stands wrong in a line.
#[derive(Clone, Copy, Debug, PartialEq, Eq)]
pub enum Why {
    Word,
    NoNumber,
    TooLarge,
    Missing(Form),
    TooMany(Form),
    MissionNumber,
    BelowNothing,
    MissionAgain,
    BehindErased,
}

// What is wrong, and at which place of the text.
#[derive(Clone, Copy, Debug, PartialEq, Eq)]
pub struct Wrong {
    pub why: Why,
    pub place: usize,
}

impl Why {
    fn at(self, place: usize) -> Wrong
        ensures why { result.why ≡ self }
        ensures place { result.place ≡ place }
    {
        Wrong { why: self, place }
    }
}

impl From<NoNumber> for Why {
    ghost from_gives = { λ no why. why ≡ why_of no };

    fn from(no: NoNumber) -> Why {
        match no {
            NoNumber::TooLarge => Why::TooLarge,
            NoNumber::None => Why::NoNumber,
        }
    }
}

// What a line says.
#[derive(Clone, Copy, Debug, PartialEq, Eq)]
pub enum Line {
    Nothing,
    Mission(u16),
    Curve(Curve),
    Erased(usize),
}

// What a line says, and the place of the first word, which says it.
#[derive(Clone, Copy, Debug, PartialEq, Eq)]
pub struct Said {
    pub line: Line,
    pub place: usize,
}

// By comparison, not by a match on byte strings: that leaves a goal for each byte that may differ, 37 of them, and is no plainer.
fn form_of(word: &[u8]) -> Option<Form>
    ensures { Named result word.now }
{
    if word == b"mission".as_slice() {
        Some(Form::Mission)
    } else if word == b"C3".as_slice() {
        Some(Form::Cubic)
    } else if word == b"C5".as_slice() {
        Some(Form::Quintic)
    } else if word == b"erased".as_slice() {
        Some(Form::Erased)
    } else {
        None
    }
}

// Takes the numbers of a text, as many as there is room for.
fn take_numbers(text: &[u8], form: Form, out: &mut [i64]) -> Result<(), Wrong>
    ensures { NumbersIn text.now out.new result }
{
    // Counted by hand: a word too many and a number too few are told apart. A zip would end at the shorter of the two, and the count of an enumerate
    // is gone behind the loop, where it is asked for.
    let mut count: usize = 0;
    for word in Words::of(text) {
        let x = number_in(word.bytes).map_err(|none| Why::from(none).at(word.place))?;
        if count >= out.len() {
            return Err(Why::TooMany(form).at(word.place));
        }
        out[count] = x;
        count += 1;
    }
    if count < out.len() {
        return Err(Why::Missing(form).at(text.len()));
    }
    Ok(())
}

// The one number of a text, which is not below 0 and not above a bound.
fn amount_in(text: &[u8], form: Form, most: usize, beyond: Why) -> Result<usize, Wrong>
    ensures { AmountIn text.now most result }
{
    let mut n = [0i64; 1];
    take_numbers(text, form, &mut n)?;
    match usize::try_from(n[0]) {
        Ok(size) if size <= most => Ok(size),
        _ => Err(beyond.at(find(text, 0, Sought::Word))),
    }
}

// The curve of a form, which has so many numbers.
fn curve<const N: usize>(text: &[u8], form: Form) -> Result<Line, Wrong>
    requires { N ≤ 12 }
    ensures { CurveBehind text.now N result }
{
    let mut n = [0i64; N];
    take_numbers(text, form, &mut n)?;
    // Refused where no curve has N numbers.
    let curve = curve_in(&n).ok_or(Why::Missing(form).at(0))?;
    Ok(Line::Curve(curve))
}

// What stands behind the word of a form.
fn behind(form: Form, text: &[u8]) -> Result<Line, Wrong>
    ensures { SaysBehind (word_of form) text.now result }
{
    match form {
        Form::Mission => {
            let number = amount_in(text, form, 65535, Why::MissionNumber)?;
            // No number here is above the bound, so `try_from` would have an error that never comes.
            Ok(Line::Mission(number as u16))
        }
        Form::Cubic => curve::<8>(text, form),
        Form::Quintic => curve::<12>(text, form),
        Form::Erased => {
            let count = amount_in(text, form, 9223372036854775807, Why::BelowNothing)?;
            Ok(Line::Erased(count))
        }
    }
}

// What a line without its comment says.
fn read_words(text: &[u8]) -> Result<Said, Wrong>
    ensures { WordsSay text.now result }
{
    let mut words = Words::of(text);
    let Some(Word { place, bytes }) = words.next() else {
        return Ok(Said {
            line: Line::Nothing,
            place: text.len(),
        });
    };
    let Some(form) = form_of(bytes) else {
        return Err(Why::Word.at(place));
    };
    // By a match: with `map_err` and `?` the proof did not close over the sum in the closure, which is the place that is told.
    match behind(form, words.rest()) {
        Ok(line) => Ok(Said { line, place }),
        // Its place counts from the word's end.
        Err(wrong) => Err(wrong.why.at(words.at + wrong.place)),
    }
}

// What a line says. A comment goes from a # to the line's end.
pub(crate) fn read_line(text: &[u8]) -> Result<Said, Wrong>
    ensures { LineSays text.now result }
{
    let end = find(text, 0, Sought::Byte(b'#'));
    read_words(&text[..end])
}
