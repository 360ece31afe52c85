// The delay list: what a run of words says, and what reading and writing one come to.
// Definitions stand in `specs/`, laws in `proofs/`; here is only a type of the answers.
#![tactic(auto)]

// The counts of registers and pairs of a list.
#[derive(Clone, Copy, Debug, PartialEq, Eq)]
pub struct Counts {
    pub registers: u32,
    pub pairs: u32,
}
