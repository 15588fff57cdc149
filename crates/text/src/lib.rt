// Text in a lent byte area, written piece by piece, and zeros behind it.
#![tactic(auto)]

ghost use Rattle.std.specs.Prelude.{◌≡◌, ◌++◌, ◌≤◌, length};
ghost use Rattle.std.specs.Option.{ForSome};
ghost use Rattle.text.specs.Texts.{decimal, signed};

use area::put;
use refusal::Refusal;

// A text that is being written into a lent area, from the area's first byte on: how many bytes it has, or None once a piece of it did not fit.
#[derive(Drop)]
pub struct Text<'a> {
    area: &'a mut [u8],
    len: Option<usize>,
    ghost inside: { ForSome len (λ n. n ≤ length area.now) },
}

impl<'a> Text<'a> {
    ghost use Rattle.text.specs.Steps.{Begins, Stands, Writes, Finishes};

    // The empty text, at the area's first byte.
    pub fn new(area: &'a mut [u8]) -> Text<'a>
        ensures { Begins area.entry result }
    {
        Text { area, len: Some(0) }
    }

    // The text of so many bytes that stand in the area already; it does not fit there where the area is shorter.
    pub fn behind(area: &'a mut [u8], end: usize) -> Text<'a>
        ensures { Stands area.entry end result }
    {
        let len = (end <= area.len()).then_some(end);
        Text { area, len }
    }

    // How many bytes it has so far, or None once a piece of it did not fit.
    pub fn len(&self) -> Option<usize>
        ensures { result ≡ self.now.len }
    {
        self.len
    }

    // Writes a piece. Behind one that did not fit nothing is written any more.
    pub fn put(&mut self, piece: &[u8])
        ensures { Writes self.old piece.now self.new }
    {
        let Some(start) = self.len else {
            return;
        };
        let fits = piece.len() <= self.area.len() - start;
        put(&mut self.area[start..], piece);
        self.len = if fits {
            Some(start + piece.len())
        } else {
            None
        };
    }

    pub fn put_number(&mut self, n: u64)
        ensures { Writes self.old (decimal n) self.new }
    {
        let mut digits = [0u8; 20];
        let count = io::decimal(n, &mut digits);
        self.put(&digits[..count]);
    }

    pub fn put_labelled(&mut self, label: &[u8], n: u64)
        ensures { Writes self.old (label.now ++ decimal n) self.new }
    {
        self.put(label);
        self.put_number(n);
    }

    // A whole number behind its label, with a minus sign where it is below 0.
    pub fn put_signed(&mut self, label: &[u8], x: i64)
        ensures { Writes self.old (label.now ++ signed x) self.new }
    {
        self.put(label);
        if x < 0 {
            self.put(b"-");
        }
        self.put_number(x.unsigned_abs());
    }

    // How many bytes the text has; zeros stand behind it. An area that is too short for it is cleared.
    pub fn finish(self) -> Result<usize, Refusal>
        ensures { Finishes self.entry self.exit.0.now result }
    {
        let Text { area, len } = self;
        area[len.unwrap_or(0)..].fill(0);
        len.ok_or(Refusal::Room)
    }
}
