// The call on a whole number, and what it answers: what it returned is looked at as C code does (curves.rt says why).
use crate::answers::say_refused;
use std::io;
use std::io::Write;

pub(crate) fn root<W: Write>(to: &mut W, n: u64) -> io::Result<()> {
    let mut out = [0i64; 2];
    let returned = number_calls::root(n, &mut out);
    if returned < 0 {
        return say_refused(to, returned);
    }
    let [root, rest] = out;
    write!(to, "root {root} rest {rest}")
}
