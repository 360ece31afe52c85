// Chains of forced choices, which show why no split works at a period.
// Definitions stand in `specs/`, laws in `proofs/`.
#![tactic(auto)]
