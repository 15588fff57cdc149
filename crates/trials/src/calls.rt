// The calls: their names, and what each takes.
use std::fmt;

// In the order in which they are told.
#[derive(Clone, Copy, Debug, PartialEq, Eq)]
pub(crate) enum Call {
    Recognise,
    Length,
    Inflections,
    Offset,
    Build,
    Joins,
    Check,
    Read,
    Find,
    Erase,
    Append,
    Root,
    Parts,
    Start,
}

// Written beside the enum: the language has no list of an enum's variants.
pub(crate) const CALLS: [Call; 14] = [
    Call::Recognise,
    Call::Length,
    Call::Inflections,
    Call::Offset,
    Call::Build,
    Call::Joins,
    Call::Check,
    Call::Read,
    Call::Find,
    Call::Erase,
    Call::Append,
    Call::Root,
    Call::Parts,
    Call::Start,
];

impl Call {
    // The call of this name.
    pub(crate) fn named(name: &[u8]) -> Option<Call> {
        CALLS
            .iter()
            .find(|call| call.usage().0.as_bytes() == name)
            .copied()
    }

    // Its name, and what it takes.
    fn usage(self) -> (&'static str, &'static str) {
        match self {
            Call::Recognise => ("recognise", "CURVE: 4 or 6 points, each as x y"),
            Call::Length => ("length", "CURVE: 4 or 6 points, each as x y"),
            Call::Inflections => ("inflections", "CURVE: 4 or 6 points, each as x y"),
            Call::Offset => (
                "offset",
                "CURVE by H [in ROOM]: 4 or 6 points, each as x y, and a distance",
            ),
            Call::Build => (
                "build",
                "P0 from W0 W1 [W2]: a point and 2 or 3 pairs, each as x y",
            ),
            Call::Joins => (
                "joins",
                "A Z over T [in ROOM]: the first leg, the last leg and the travel, each as x y",
            ),
            Call::Check => (
                "check",
                "RUNS: a sheet by its runs of equal bytes, each as BYTE HOW-MANY",
            ),
            Call::Read => ("read", "MISSION NUMBER of RUNS: a curve of a sheet"),
            Call::Find => (
                "find",
                "MISSION NUMBER of RUNS: the bytes of a curve of a sheet",
            ),
            Call::Erase => ("erase", "RUNS: a sheet"),
            Call::Append => (
                "append",
                "C3 POINTS to RUNS, or append C5 POINTS to RUNS: 4 or 6 points, and a sheet",
            ),
            Call::Root => ("root", "N: a number from 0 to 18446744073709551615"),
            Call::Parts => (
                "parts",
                "RUNS / RUNS / ...: a sheet that arrives by parts, each told by its runs, or empty",
            ),
            Call::Start => ("start", "MISSION on RUNS: a sheet"),
        }
    }
}

impl fmt::Display for Call {
    fn fmt<W: fmt::Write>(&self, f: &mut fmt::Formatter<W>) -> fmt::Result {
        let (name, takes) = self.usage();
        write!(f, "{name} {takes}")
    }
}
