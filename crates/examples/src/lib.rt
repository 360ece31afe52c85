// Worked examples of the plan and of single splits, in one table: over pairs, and over the words of the list.
// The table stands in `specs/`, the theorem that covers it in `proofs/`; there is no code.
#![tactic(auto)]
