// The pieces of the bench report. A usize becomes a u64 by `as`: there is no From between the two.
ghost use Rattle.std.specs.Prelude.{◌++◌};
ghost use Rattle.refusal.specs.Answers.{answer_at};
ghost use Rattle.text.specs.Texts.{bytes, decimal};
ghost use Rattle.text.specs.Steps.{Writes};
ghost use Rattle.totals_text.specs.Texts.{hundredths_text, verdict_lines, refusal_lines, longest_line, front, said};

use refusal::Fault;
use report_text::put_refused;
use sheet::Checked;
use text::Text;
use totals::Longest;

// A number behind its label, and the line's end.
pub(crate) fn put_count(text: &mut Text, label: &[u8], n: u64)
    ensures { Writes text.old (label.now ++ decimal n ++ bytes "\n") text.new }
{
    text.put_labelled(label, n);
    text.put(b"\n");
}

// Line by line, as `verdict_lines` has them: four lines are plainer than a table of the labels and a loop over it.
pub(crate) fn put_counts(text: &mut Text, v: &[u64; 4])
    ensures { Writes text.old (verdict_lines v.now) text.new }
{
    put_count(text, b"still ", v[0]);
    put_count(text, b"no ", v[1]);
    put_count(text, b"ph ", v[2]);
    put_count(text, b"pre ", v[3]);
}

// Line by line, as `refusal_lines` has them: a loop is no plainer, since it needs a second definition, of the first so many lines.
pub(crate) fn put_refusals(text: &mut Text, n: &[u64; 6])
    ensures { Writes text.old (refusal_lines n.now) text.new }
{
    put_count(text, b"refused 1 ", n[0]);
    put_count(text, b"refused 2 ", n[1]);
    put_count(text, b"refused 3 ", n[2]);
    put_count(text, b"refused 4 ", n[3]);
    put_count(text, b"refused 5 ", n[4]);
    put_count(text, b"refused 6 ", n[5]);
}

// Whole hundredths, with a point before the last two digits.
pub(crate) fn put_hundredths(text: &mut Text, m: u64)
    ensures { Writes text.old (hundredths_text m) text.new }
{
    text.put_number(m / 100);
    text.put_labelled(b".", m / 10 % 10);
    text.put_number(m % 10);
}

pub(crate) fn put_longest(text: &mut Text, longest: Option<Longest>)
    ensures { Writes text.old (longest_line longest) text.new }
{
    let Some(l) = longest else {
        text.put(b"longest none\n");
        return;
    };
    text.put(b"longest ");
    put_hundredths(text, l.hundredths);
    text.put_labelled(b" sheet ", l.sheet);
    put_count(text, b" curve ", l.number);
}

// The number and the name of a sheet.
pub(crate) fn put_front(text: &mut Text, number: u64, name: &[u8])
    ensures { Writes text.old (front number name.now) text.new }
{
    text.put_number(number);
    text.put(b" ");
    text.put(name);
    text.put(b": ");
}

// What was said of a sheet.
pub(crate) fn put_said(text: &mut Text, answer: Result<Checked, Fault>)
    ensures { Writes text.old (said (answer_at answer)) text.new }
{
    match answer {
        Ok(told) => {
            text.put_number(told.curves as u64);
            text.put(b" curves\n");
        }
        Err(f) => put_refused(text, f),
    }
}
