// What the test programs share: sizes, numbers that look random, lists and their rules, buffers, lines of text, and a tally.
#![tactic(auto)]

pub mod largest;
pub mod lists;
pub mod places;
pub mod random;
pub mod rules;
pub mod schedules;
pub mod show;
pub mod tally;
