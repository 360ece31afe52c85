// The least number that passes a test. Definitions stand in `specs/`, laws in `proofs/`; there is no code.
#![tactic(auto)]
