// What is true across crates: a built curve is recognised, and a listed join is built. See specs/; there is no code here.
#![tactic(auto)]
