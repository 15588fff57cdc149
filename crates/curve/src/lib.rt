// Planar cubics and quintics with whole points: their range, their legs and the leg polynomial D.
#![tactic(auto)]

mod drawing;
mod ranges;

pub use drawing::{drawn, legs_of};
use pair::Pair;
pub use ranges::in_range;

// How far a coordinate may be from 0.
pub const COORDINATE_REACH: u32 = 20000;

// Two structs with named points, and not one with a const parameter: the definitions and theorems of specs/ name both kinds, and a kind with N points
// has N − 1 legs and 2 N numbers, which such a parameter can't say, as a const argument is never computed.
#[derive(Clone, Copy, Debug, PartialEq, Eq)]
pub struct Cubic {
    pub p0: Pair,
    pub p1: Pair,
    pub p2: Pair,
    pub p3: Pair,
}

#[derive(Clone, Copy, Debug, PartialEq, Eq)]
pub struct Quintic {
    pub p0: Pair,
    pub p1: Pair,
    pub p2: Pair,
    pub p3: Pair,
    pub p4: Pair,
    pub p5: Pair,
}

#[derive(Clone, Copy, Debug, PartialEq, Eq)]
pub enum Curve {
    Cubic(Cubic),
    Quintic(Quintic),
}

// The legs of a cubic or a quintic.
#[derive(Clone, Copy, Debug, PartialEq, Eq)]
pub enum Legs {
    Cubic(Pair, Pair, Pair),
    Quintic(Pair, Pair, Pair, Pair, Pair),
}

// e0 + e1 t + .. + e4 t^4
// Named fields, and no array: each coefficient is a difference of its own order, with a formula of its own.
#[derive(Clone, Copy, Debug, PartialEq, Eq)]
pub struct LegPowers {
    pub e0: Pair,
    pub e1: Pair,
    pub e2: Pair,
    pub e3: Pair,
    pub e4: Pair,
}
