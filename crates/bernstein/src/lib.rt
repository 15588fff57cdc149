// Theorems on binomial coefficients, differences, and polynomials by their Bernstein coefficients: see proofs/. There is no code here.
#![tactic(auto)]
