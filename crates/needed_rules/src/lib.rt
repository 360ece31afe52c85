// The timing rules with the registers' needs, as the words of a list give them, are those of the pairs that the jobs take.
// Mathematics only: the rules stand in `specs/`, the theorems in `proofs/`.
#![tactic(auto)]
