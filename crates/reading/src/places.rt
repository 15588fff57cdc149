// Where something stands in a text: a byte, a word, what parts words.
ghost use Rattle.std.specs.Prelude.{◌≤◌, length};
ghost use Rattle.whole.specs.Number.{Tells};
ghost use Rattle.reading.specs.Places.{Gap, IsSought, FirstPlace};

// What is looked for in a text.
#[derive(Clone, Copy, Debug, PartialEq, Eq)]
pub enum Sought {
    Byte(u8),
    Gap,
    Word,
}

// Brackets and commas part words as blanks do.
fn is_gap(b: u8) -> bool
    ensures { Tells (Gap b) result }
{
    matches!(b, b'\t' | b'\r' | b' ' | b',' | b'('..=b')')
}

fn is_sought(b: u8, sought: Sought) -> bool
    ensures { Tells (IsSought sought b) result }
{
    match sought {
        Sought::Byte(x) => b == x,
        Sought::Gap => is_gap(b),
        Sought::Word => !is_gap(b),
    }
}

// The first place from `from` on that has what is sought, or the text's end.
pub fn find(text: &[u8], from: usize, sought: Sought) -> usize
    requires { from ≤ length text.now }
    ensures { FirstPlace text.now from sought result }
{
    let rest = &text[from..];
    match rest.iter().position(|b| is_sought(*b, sought)) {
        Some(skipped) => from + skipped,
        None => text.len(),
    }
}
