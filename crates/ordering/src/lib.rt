// The order of the pairs of a list, and pairs of the same registers joined into one.
// Mathematics only: definitions stand in `specs/`, laws in `proofs/`.
#![tactic(auto)]
