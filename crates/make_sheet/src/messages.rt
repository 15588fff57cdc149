// The messages, on the error output. What is said of a wrong line is held by examples/make.txt, and not by a promise.
use crate::NoSheet;
use crate::lines::{Form, Why};
use refusal::number;
use std::fmt;

// What a line of a form looks like.
impl fmt::Display for Form {
    fn fmt<W: fmt::Write>(&self, f: &mut fmt::Formatter<W>) -> fmt::Result {
        f.write_str(match self {
            Form::Mission => "`mission` has one number",
            Form::Cubic => "`C3` has 4 points, each as x,y",
            Form::Quintic => "`C5` has 6 points, each as x,y",
            Form::Erased => "`erased` has one number",
        })
    }
}

// What is wrong, and with some of it the form of the line.
impl fmt::Display for Why {
    fn fmt<W: fmt::Write>(&self, f: &mut fmt::Formatter<W>) -> fmt::Result {
        f.write_str(match self {
            Why::Word =>
                "no line begins with this word: a line is `mission N`, `C3` with 4 points, `C5` with 6 points, or `erased N`",
            Why::NoNumber => "this is no whole number",
            Why::TooLarge => "this number is too large to be read",
            Why::Missing(form) => return write!(f, "a number is missing here: {form}"),
            Why::TooMany(form) => return write!(f, "this number is one too many: {form}"),
            Why::MissionNumber => "a mission's number is from 0 to 65535",
            Why::BelowNothing => "there cannot be fewer than 0 erased bytes",
            Why::MissionAgain =>
                "the sheet has its mission already: `mission` stands once, before the curves",
            Why::BehindErased => "nothing but comments stands behind `erased`",
        })
    }
}

impl fmt::Display for NoSheet {
    fn fmt<W: fmt::Write>(&self, f: &mut fmt::Formatter<W>) -> fmt::Result {
        match self {
            NoSheet::Refused { line, refusal } => {
                write!(f, "line {line}: refused {} {refusal}", number(*refusal))
            }
            NoSheet::Wrong { line, column, why } => {
                write!(f, "error at line {line}, column {column}: {why}")
            }
        }
    }
}
