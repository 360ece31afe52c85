// Splits of the registers into early and late, and the marks by which the first that works is found.
// Definitions stand in `specs/`, laws in `proofs/`; here are only the types that the code shares.
#![tactic(auto)]

// What a step did to the marks: nothing was left to do, a mark was set, or a register was forced both ways.
// Of two steps the greater one counts: a clash stays a clash, a change a change.
#[derive(Clone, Copy, PartialEq, Eq, PartialOrd, Ord)]
pub enum Change {
    Settled,
    Changed,
    Clash,
}
