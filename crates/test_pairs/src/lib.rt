// What the tests of conversion and of pooling share: pairs as they come, in any order and with repeats, and what plain code makes of them.
#![tactic(auto)]

pub mod joining;
pub mod searches;
pub mod show;
