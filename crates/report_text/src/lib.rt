// The report of a parameter sheet, as text in a lent byte area.
#![tactic(auto)]

mod lines;

ghost use Rattle.std.specs.Prelude.{◌≡◌};
ghost use Rattle.refusal.specs.Answers.{given, with_given};
ghost use Rattle.sheet.specs.Survey.{outcome};
ghost use Rattle.sheet.specs.Promise.{told_of};
ghost use Rattle.report_text.specs.Promise.{Reported};
ghost use Rattle.report_text.specs.Steps.{WritesReport};

use lines::put_lines;
pub use lines::{put_first_line, put_refused};
use refusal::Refusal;
use sheet::Checked;
use text::Text;

// The report of a sound sheet.
fn put_sound(text: &mut Text, sheet: &[u8], told: Checked)
    requires { with_given told_of (outcome sheet.now) ≡ given told }
    ensures { WritesReport text.old sheet.now (given told) text.new }
{
    put_first_line(text, told.mission, told.curves);
    put_lines(text, sheet, told.curves);
}

// The report, as far as it fits.
fn put_report(text: &mut Text, sheet: &[u8])
    ensures { WritesReport text.old sheet.now (with_given told_of (outcome sheet.now)) text.new }
{
    match sheet::check(sheet) {
        Ok(told) => put_sound(text, sheet, told),
        Err(f) => put_refused(text, f),
    }
}

// Writes the report of a sheet into the area. An area that is too short is cleared. These three lines stand in each writer of a text: one function
// that takes the pieces as a closure is no plainer, since it must ask of its caller that the closure keeps the text's area.
pub fn write_report(sheet: &[u8], area: &mut [u8]) -> Result<usize, Refusal>
    ensures { Reported sheet.now area.old area.new result }
{
    let mut text = Text::new(area);
    put_report(&mut text, sheet);
    text.finish()
}
