// The calls on whole numbers for C: `yard` exports them, and include/yard.h has a comment for each.
#![tactic(auto)]

ghost use Rattle.number_calls.specs.Promise.{RootCall};

use hand::hand;
use whole::square_root;

// The root and the rest are below 2^33, which the type u64 does not say: they are cast, since `try_from` would have a refusal that never comes.
pub fn root(n: u64, out: &mut [i64]) -> i64
    ensures { RootCall n out.old out.new result }
{
    let found = square_root(n);
    let xs = [found.root as i64, found.rest as i64];
    hand(out, &xs)
}
