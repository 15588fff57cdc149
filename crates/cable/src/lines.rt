// The line of what the check answers, where there is room for it.
ghost use Rattle.std.specs.Prelude.{◌≡◌, ◌≤◌, length, take};
ghost use Rattle.refusal.specs.Answers.{answer_at};
ghost use Rattle.text.specs.Steps.{Writes};
ghost use Rattle.cable.specs.Cables.{answer_line};

use refusal::Fault;
use report_text::{put_first_line, put_refused};
use sheet::Checked;
use text::Text;

fn put_answer(text: &mut Text, answer: Result<Checked, Fault>)
    ensures { Writes text.old (answer_line (answer_at answer)) text.new }
{
    match answer {
        Ok(told) => put_first_line(text, told.mission, told.curves),
        Err(f) => put_refused(text, f),
    }
}

// These three lines stand in each writer of a text: one function that takes the pieces as a closure is no plainer, since it must ask of its
// caller that the closure keeps the text's area.
pub(crate) fn line_of(answer: Result<Checked, Fault>, area: &mut [u8]) -> usize
    requires { length (answer_line (answer_at answer)) ≤ length area.old }
    ensures { (result ≤ length area.new) × (take result area.new ≡ answer_line (answer_at answer)) }
{
    let mut text = Text::new(area);
    put_answer(&mut text, answer);
    text.finish().unwrap()
}
