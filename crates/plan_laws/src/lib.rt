// The plan with two timings: its period, its offset and its split, and the claim that no rival beats them.
// Mathematics only: definitions stand in `specs/`, laws in `proofs/`.
#![tactic(auto)]
