// The common period, the free period and the free schedule. Definitions stand in `specs/`, laws in `proofs/`; there is no code.
#![tactic(auto)]
