// The texts of the report, where there is room for them.
ghost use Rattle.std.specs.Prelude.{◌≡◌, ◌≤◌, length, take};
ghost use Rattle.refusal.specs.Answers.{answer_at};
ghost use Rattle.totals_text.specs.Texts.{sheet_line, totals_text};

use refusal::Fault;
use sheet::Checked;
use totals::Totals;
use totals_text::{write_line, write_totals};

// The line of a sheet.
pub(crate) fn line_of(
    number: u64,
    name: &[u8],
    answer: Result<Checked, Fault>,
    text: &mut [u8],
) -> usize
    requires { length (sheet_line number name.now (answer_at answer)) ≤ length text.old }
    ensures { (result ≤ length text.new) × (take result text.new ≡ sheet_line number name.now (answer_at answer)) }
{
    write_line(number, name, answer, text).unwrap()
}

// The lines of the totals.
pub(crate) fn lines_of(t: Totals, text: &mut [u8]) -> usize
    requires { length (totals_text t) ≤ length text.old }
    ensures { (result ≤ length text.new) × (take result text.new ≡ totals_text t) }
{
    write_totals(t, text).unwrap()
}
