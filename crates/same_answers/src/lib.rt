// Lists of pairs that ask for the same have the same answers: schedules, periods, offsets and splits.
// Mathematics only: definitions stand in `specs/`, laws in `proofs/`.
#![tactic(auto)]
