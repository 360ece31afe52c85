// Runs the split at a period and an offset on worked examples, on random small lists against a plain search over all
// splits, and on chains of 512 registers. What it prints is held to the file `stdout`.
#![tactic(auto)]

mod examples;
mod large;
mod small;

use std::io;

fn main(rt: HostRuntime) -> io::Result<()> {
    examples::splits(&rt)?;
    examples::needy_splits(&rt)?;
    examples::refusals(&rt)?;
    small::lists(&rt)?;
    large::chains(&rt)
}
