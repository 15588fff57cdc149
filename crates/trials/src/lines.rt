// The lines: `LABEL: CALL ARGUMENTS`, or a call alone. Empty lines, and those that begin with #, are passed over.
ghost use Rattle.std.specs.Prelude.{◌≡◌, IfOk};

use crate::calls::{CALLS, Call};
use crate::numbers::arguments;
use crate::questions::Question;
use crate::roots::root;
use crate::runs::{no_byte, put_runs};
use crate::sheets::say_checked;
use crate::{curves, sheets};
use reading::{Lines, Sought, Words, find, size_in};
use std::io;
use std::io::Write;

// Why a call has no answer: it takes other numbers, something is wrong at a column of the line, or what it answers could not be written.
#[derive(Debug, Drop)]
enum NoAnswer {
    Unfit,
    Wrong(usize, &'static str),
    Output(io::Error),
}

impl From<io::Error> for NoAnswer {
    fn from(error: io::Error) -> NoAnswer {
        NoAnswer::Output(error)
    }
}

fn say_error<W: Write>(to: &mut W, line: usize, column: usize, why: &str) -> io::Result<()> {
    write!(to, "error at line {line}, column {column}: {why}")
}

// The root of the one word that is left, which is a number of any 64 bits.
fn ask_root<W: Write>(to: &mut W, mut words: Words) -> Result<(), NoAnswer> {
    let (Some(word), None) = (words.next(), words.next()) else {
        return Err(NoAnswer::Unfit);
    };
    let Ok(n) = size_in(word.bytes) else {
        return Err(NoAnswer::Wrong(
            word.place + 1,
            "not a number from 0 to 18446744073709551615",
        ));
    };
    root(to, n)?;
    Ok(())
}

// The call with the numbers that are left, which are written to an area first.
fn question<'a>(call: Call, words: Words, n: &'a mut [i64; 64]) -> Result<Question<'a>, NoAnswer> {
    let count = arguments(words, n).map_err(|column| NoAnswer::Wrong(
        column,
        "neither a number nor a word of a call",
    ))?;
    let given = &n[..count];
    let Some(question) = call.with(given) else {
        return Err(NoAnswer::Unfit);
    };
    let runs = question.runs();
    let Some(bad) = no_byte(runs) else {
        return Ok(question);
    };
    // With room for the numbers before it alone, it is the first that is wrong. The runs are the last numbers.
    let mut space = [0i64; 64];
    let left = runs.len().saturating_sub(bad);
    let before = count.saturating_sub(left);
    arguments(words, &mut space[..before]).map_err(|column| NoAnswer::Wrong(
        column,
        "a byte is a number from 0 to 255",
    ))?;
    Ok(question)
}

// The sheet whose parts are left of the text, with / between them.
fn ask_parts<W: Write>(to: &mut W, words: Words, area: &mut [u8]) -> Result<(), NoAnswer> {
    let mut state = [0i64; 13];
    parts_calls::start(&mut state);
    let Words { text, mut at } = words;
    // By hand: a column that is told counts from the line's first byte, and `split` gives the parts without where they begin, so that this would
    // be counted beside it all the same. The last part may be empty, and so stand at the text's end.
    while at <= text.len() {
        let end = find(text, at, Sought::Byte(b'/'));
        let mut n = [0i64; 64];
        let part = Words {
            text: &text[..end],
            at,
        };
        let asked = question(Call::Parts, part, &mut n)?;
        // A part is cut where the area ends, which is too long for a sheet all the same.
        let most = put_runs(area, asked.runs());
        parts_calls::feed(&mut state, &area[..most]);
        at = end + 1;
    }
    say_checked(to, parts_calls::end(&mut state))?;
    Ok(())
}

// Asks it, and writes what it answers. The area is what its sheet is made in.
fn answer<W: Write>(to: &mut W, question: Question, area: &mut [u8]) -> io::Result<()> {
    let end = put_runs(area, question.runs());
    let sheet = &mut area[..end];
    match question {
        Question::Recognise(curve) => curves::recognise(to, curve),
        Question::Length(curve) => curves::length(to, curve),
        Question::Inflections(curve) => curves::inflections(to, curve),
        Question::Offset(curve, h, room) => curves::offset(to, curve, h, room),
        Question::Build(x, y, w) => curves::build(to, x, y, w),
        Question::Joins(given, room) => curves::joins(to, given, room),
        Question::Check(_) => sheets::check(to, sheet),
        Question::Erase(_) => sheets::erase(to, sheet),
        Question::Start(mission, _) => sheets::start(to, sheet, mission),
        Question::Read(mission, number, _) => sheets::read(to, sheet, mission, number),
        Question::Find(mission, number, _) => sheets::find(to, sheet, mission, number),
        Question::Append(points, _) => sheets::append(to, sheet, points),
    }
}

// The call, with the numbers that are left.
fn ask<W: Write>(to: &mut W, call: Call, words: Words, area: &mut [u8]) -> Result<(), NoAnswer> {
    match call {
        Call::Root => ask_root(to, words),
        Call::Parts => ask_parts(to, words, area),
        _ => {
            let mut n = [0i64; 64];
            let question = question(call, words, &mut n)?;
            answer(to, question, area)?;
            Ok(())
        }
    }
}

// Every call's line, handed over at once: piece by piece, each piece would be a call of the system. The lines have 799 bytes.
fn say_calls<W: Write>(to: &mut W) -> io::Result<()> {
    let mut text = [0u8; 1024];
    let mut rest: &mut [u8] = &mut text;
    for call in &CALLS {
        write!(rest, "\n{call}")?;
    }
    let end = text.iter().position(|b| *b == 0).unwrap_or(text.len());
    to.write_all(&text[..end])
}

// The call whose name is the first word that is left.
fn call<W: Write>(to: &mut W, mut words: Words, line: usize, area: &mut [u8]) -> io::Result<()> {
    let Some(name) = words.next() else {
        return say_error(to, line, words.text.len(), "a label without a call");
    };
    let column = name.place + 1;
    let Some(named) = Call::named(name.bytes) else {
        say_error(to, line, column, "no call has this name; the calls are")?;
        return say_calls(to);
    };
    match ask(to, named, words, area) {
        Ok(()) => Ok(()),
        Err(NoAnswer::Unfit) => {
            say_error(to, line, column, "usage: ")?;
            write!(to, "{named}")
        }
        Err(NoAnswer::Wrong(column, why)) => say_error(to, line, column, why),
        Err(NoAnswer::Output(error)) => Err(error),
    }
}

// Writes the label, if there is one; the words behind it.
fn pass_label<'a, W: Write>(to: &mut W, text: &'a [u8]) -> io::Result<Words<'a>>
    ensures { IfOk result (λ words. words.text ≡ text.entry) }
{
    let colon = find(text, 0, Sought::Byte(b':'));
    if colon == text.len() {
        return Ok(Words::of(text));
    }
    to.write_all(&text[..colon])?;
    write!(to, ": ")?;
    Ok(Words {
        text,
        at: colon + 1,
    })
}

fn answer_line<W: Write>(to: &mut W, text: &[u8], line: usize, area: &mut [u8]) -> io::Result<()> {
    if matches!(text, [] | [b'#', ..]) {
        return Ok(());
    }
    let words = pass_label(to, text)?;
    call(to, words, line, area)?;
    writeln!(to)
}

// The area is what the sheets are made in.
pub(crate) fn all<W: Write>(to: &mut W, text: &[u8], area: &mut [u8]) -> io::Result<()> {
    for (passed, line) in Lines::of(text).enumerate() {
        answer_line(to, line, passed + 1, area)?;
    }
    Ok(())
}
