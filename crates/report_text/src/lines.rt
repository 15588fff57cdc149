// The lines of a report. A usize becomes a u64 by `as`: there is no From between the two.
ghost use Rattle.std.specs.Prelude.{◌≡◌, ◌++◌};
ghost use Rattle.refusal.specs.Answers.{given, with_given};
ghost use Rattle.curve.specs.Curves.{points_of, InRange};
ghost use Rattle.verdict.specs.Promise.{Recognised};
ghost use Rattle.sheet.specs.Survey.{outcome};
ghost use Rattle.sheet.specs.Promise.{count_of};
ghost use Rattle.text.specs.Texts.{labelled};
ghost use Rattle.text.specs.Steps.{Writes};
ghost use Rattle.report_text.specs.Texts.{mission_text, first_line, kind_text, verdict_text, line_text, refused_line};
ghost use Rattle.report_text.specs.Steps.{WritesJudged, WritesLines};

use curve::Curve;
use measure::length_by;
use measure::lengths::Length;
use record::{Kind, held_curve, kind_of, row_of};
use refusal::{Fault, number};
use text::Text;
use verdict::{Verdict, recognise};

fn put_kind(text: &mut Text, curve: Curve)
    ensures { Writes text.old (kind_text curve) text.new }
{
    let row = row_of(kind_of(curve));
    text.put(b" ");
    text.put(&row.name);
    text.put(b" ");
}

// The verdict pre, with c and the length A/B.
fn put_length(text: &mut Text, length: Length)
    ensures { Writes text.old (labelled "pre c=" length.c ++ labelled " len=" length.a ++ labelled "/" length.b) text.new }
{
    text.put_signed(b"pre c=", length.c);
    text.put_signed(b" len=", length.a);
    text.put_signed(b"/", length.b);
}

fn put_verdict(text: &mut Text, curve: Curve, v: Verdict)
    requires { InRange (points_of curve) × Recognised (points_of curve) (Ok v) }
    ensures { Writes text.old (verdict_text curve v) text.new }
{
    match v {
        Verdict::Still => text.put(b"still"),
        Verdict::No => text.put(b"no"),
        Verdict::Ph(s) => text.put_signed(b"ph c=", s.c),
        Verdict::Pre(p) => put_length(text, length_by(curve, p.square)),
    }
}

fn put_line(text: &mut Text, number: usize, curve: Curve)
    requires { InRange (points_of curve) }
    ensures { WritesJudged text.old curve (line_text number curve) text.new }
{
    // A curve in range is not refused.
    let verdict = recognise(curve).unwrap();
    text.put_number(number as u64);
    put_kind(text, curve);
    put_verdict(text, curve, verdict);
    text.put(b"\n");
}

fn put_mission(text: &mut Text, mission: Option<u16>)
    ensures { Writes text.old (mission_text mission) text.new }
{
    match mission {
        None => text.put(b"mission none"),
        Some(number) => text.put_labelled(b"mission ", u64::from(number)),
    }
}

// The first line of a sound sheet: its mission, and how many curves it has.
pub fn put_first_line(text: &mut Text, mission: Option<u16>, count: usize)
    ensures { Writes text.old (first_line mission count) text.new }
{
    put_mission(text, mission);
    text.put_labelled(b" sheet ", count as u64);
    text.put(b"\n");
}

// The line of a faulty sheet, of which nothing but the fault is said.
pub fn put_refused(text: &mut Text, f: Fault)
    ensures { Writes text.old (refused_line f) text.new }
{
    text.put_labelled(b"refused ", u64::from(number(f.refusal)));
    text.put_labelled(b" at ", u64::from(f.place));
    text.put(b"\n");
}

// The lines of a sound sheet's curves, of which there are `count`, in one pass from record to record behind the header. Each is judged,
// also behind one that does not fit: the promise speaks of all lines. The places are counted by hand: an iterator over the records is no
// plainer, since with its ghost members and the law that it ends it is longer than this loop and the one of totals together; and of what a closure
// changes, here the text, a proof knows nothing once it was called.
pub(crate) fn put_lines(text: &mut Text, sheet: &[u8], count: usize)
    requires { with_given count_of (outcome sheet.now) ≡ given count }
    ensures { WritesLines text.old sheet.now count text.new }
{
    let mut next = row_of(Kind::Header).size;
    for k in 0..count {
        // So many records follow one another.
        let held = held_curve(&sheet[next..]).unwrap();
        next += held.size;
        put_line(text, k + 1, held.curve);
    }
}
