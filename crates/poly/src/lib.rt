// Theorems on polynomials with coefficients in any ring that has the laws: see proofs/. There is no code here.
#![tactic(auto)]
