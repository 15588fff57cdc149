// The bench report of a box, as text in a lent byte area.
//   write_line     the line of a sheet, by its number and its name
//   write_totals   the lines of the totals
#![tactic(auto)]

mod pieces;

ghost use Rattle.text.specs.Steps.{Writes};
ghost use Rattle.totals_text.specs.Texts.{totals_text, sheet_line};
ghost use Rattle.totals_text.specs.Promise.{LineIn, TotalsIn};
ghost use Rattle.refusal.specs.Answers.{answer_at};

use pieces::{
    put_count, put_counts, put_front, put_hundredths, put_longest, put_refusals, put_said,
};
use refusal::{Fault, Refusal};
use sheet::Checked;
use text::Text;
use totals::Totals;

fn put_sheet(text: &mut Text, number: u64, name: &[u8], answer: Result<Checked, Fault>)
    ensures { Writes text.old (sheet_line number name.now (answer_at answer)) text.new }
{
    put_front(text, number, name);
    put_said(text, answer);
}

// Writes the line of a sheet into the area. An area that is too short is cleared. These three lines stand in each of the two writers: one function
// that takes the pieces as a closure is no plainer, since it must ask of its caller that the closure keeps the text's area.
pub fn write_line(
    number: u64,
    name: &[u8],
    answer: Result<Checked, Fault>,
    area: &mut [u8],
) -> Result<usize, Refusal>
    ensures { LineIn number name.now answer area.old area.new result }
{
    let mut text = Text::new(area);
    put_sheet(&mut text, number, name, answer);
    text.finish()
}

fn put_totals(text: &mut Text, t: Totals)
    ensures { Writes text.old (totals_text t) text.new }
{
    put_count(text, b"sheets ", t.sheets);
    put_counts(text, &t.verdicts);
    put_refusals(text, &t.refused);
    text.put(b"sum ");
    put_hundredths(text, t.sum);
    text.put(b"\n");
    put_longest(text, t.longest);
}

// Writes the lines of the totals into the area. An area that is too short is cleared.
pub fn write_totals(t: Totals, area: &mut [u8]) -> Result<usize, Refusal>
    ensures { TotalsIn t area.old area.new result }
{
    let mut text = Text::new(area);
    put_totals(&mut text, t);
    text.finish()
}
